// The forms of arguments, and the options of filters and rewrites with theirs.
ghost use Rattle.std.specs.Prelude.{◌≡◌, map, List, ℕ};
ghost use Rattle.sg_parse_expr.specs.Forms as spec;

use crate::class::{Class, WordChoice};
use sg_parse_base::same_keyword;

/// The form of arguments that are no options.
#[derive(Clone, Copy, Drop)]
pub enum Flat {
    /// Any balanced tokens, which aren't kept.
    Skipped,
    One(Class),
    Many(Class),
    /// Values, and ranges of two with `..` between them.
    Ranges(Class),
}

/// The form of an option of a rewrite.
#[derive(Clone, Copy, Drop)]
pub enum RewriteOption {
    Flat(Flat),
    /// An expression.
    Condition,
}

/// The options of a filter.
#[derive(Clone, Copy, Drop)]
pub enum FilterTable {
    Pattern,
    Match,
}

/// The options of a rewrite.
#[derive(Clone, Copy, Drop)]
pub enum RewriteTable {
    Set,
    Subst,
    Group,
    Tag,
}

/// The form of a filter's arguments.
#[derive(Clone, Copy, Drop)]
pub enum FilterForm {
    Flat(Flat),
    /// A pattern and options.
    Pattern(FilterTable),
}

/// The form of a rewrite's arguments.
#[derive(Clone, Copy, Drop)]
pub enum RewriteForm {
    Options(RewriteTable),
    /// A value and options.
    Named(Class, RewriteTable),
    /// A pattern, a template and options.
    Pattern(RewriteTable),
}

const PATTERN: [(&[u8], Flat); 2] = [
    (b"type", Flat::One(Class::Word(WordChoice::PatternKind))),
    (b"flags", Flat::Many(Class::Word(WordChoice::PatternFlag))),
];

const MATCH: [(&[u8], Flat); 3] = [
    (b"type", Flat::One(Class::Word(WordChoice::PatternKind))),
    (b"flags", Flat::Many(Class::Word(WordChoice::PatternFlag))),
    (b"value", Flat::One(Class::Name)),
];

const FILTERS: [(&[u8], FilterForm); 10] = [
    (b"facility", FilterForm::Flat(Flat::Ranges(Class::Facility))),
    (b"level", FilterForm::Flat(Flat::Ranges(Class::Level))),
    (b"severity", FilterForm::Flat(Flat::Ranges(Class::Level))),
    (b"priority", FilterForm::Flat(Flat::Ranges(Class::Level))),
    (b"program", FilterForm::Pattern(FilterTable::Pattern)),
    (b"host", FilterForm::Pattern(FilterTable::Pattern)),
    (b"message", FilterForm::Pattern(FilterTable::Pattern)),
    (b"match", FilterForm::Pattern(FilterTable::Match)),
    (b"tags", FilterForm::Flat(Flat::Many(Class::Name))),
    (b"filter", FilterForm::Flat(Flat::One(Class::Name))),
];

const SET: [(&[u8], RewriteOption); 2] = [
    (b"value", RewriteOption::Flat(Flat::One(Class::Name))),
    (b"condition", RewriteOption::Condition),
];

const SUBST: [(&[u8], RewriteOption); 4] = [
    (b"value", RewriteOption::Flat(Flat::One(Class::Name))),
    (
        b"type",
        RewriteOption::Flat(Flat::One(Class::Word(WordChoice::PatternKind))),
    ),
    (
        b"flags",
        RewriteOption::Flat(Flat::Many(Class::Word(WordChoice::SubstFlag))),
    ),
    (b"condition", RewriteOption::Condition),
];

const GROUP: [(&[u8], RewriteOption); 2] = [
    (b"values", RewriteOption::Flat(Flat::Many(Class::Name))),
    (b"condition", RewriteOption::Condition),
];

const TAG: [(&[u8], RewriteOption); 1] = [(b"condition", RewriteOption::Condition)];

const REWRITES: [(&[u8], RewriteForm); 7] = [
    (
        b"set",
        RewriteForm::Named(Class::Template, RewriteTable::Set),
    ),
    (b"unset", RewriteForm::Options(RewriteTable::Set)),
    (b"subst", RewriteForm::Pattern(RewriteTable::Subst)),
    (
        b"groupset",
        RewriteForm::Named(Class::Template, RewriteTable::Group),
    ),
    (b"groupunset", RewriteForm::Options(RewriteTable::Group)),
    (
        b"set-tag",
        RewriteForm::Named(Class::Name, RewriteTable::Tag),
    ),
    (
        b"clear-tag",
        RewriteForm::Named(Class::Name, RewriteTable::Tag),
    ),
];

/// What stands in the first row of this keyword.
pub fn row_of<T: Copy>(rows: &[(&[u8], T)], text: &[u8]) -> Option<T>
    ensures { result ≡ spec.row_of (map (λ row. (row.0.now, row.1)) rows.now) text.now }
{
    for row in rows {
        if same_keyword(text, row.0) {
            return Some(row.1);
        }
    }
    None
}

/// The form of the option of that name.
#[tactic(auto, unfolding(crate::specs::Forms::filter_options))]
pub fn filter_option(table: FilterTable, text: &[u8]) -> Option<Flat>
    ensures { result ≡ spec.row_of (spec.filter_options table) text.now }
{
    match table {
        FilterTable::Pattern => row_of(&PATTERN, text),
        FilterTable::Match => row_of(&MATCH, text),
    }
}

#[tactic(auto, unfolding(crate::specs::Forms::filters))]
pub fn filter_form(text: &[u8]) -> Option<FilterForm>
    ensures { result ≡ spec.row_of spec.filters text.now }
{
    row_of(&FILTERS, text)
}

#[tactic(auto, unfolding(crate::specs::Forms::rewrite_options))]
pub fn rewrite_option(table: RewriteTable, text: &[u8]) -> Option<RewriteOption>
    ensures { result ≡ spec.row_of (spec.rewrite_options table) text.now }
{
    match table {
        RewriteTable::Set => row_of(&SET, text),
        RewriteTable::Subst => row_of(&SUBST, text),
        RewriteTable::Group => row_of(&GROUP, text),
        RewriteTable::Tag => row_of(&TAG, text),
    }
}

#[tactic(auto, unfolding(crate::specs::Forms::rewrites))]
pub fn rewrite_form(text: &[u8]) -> Option<RewriteForm>
    ensures { result ≡ spec.row_of spec.rewrites text.now }
{
    row_of(&REWRITES, text)
}
