// What a filter says of messages.

use sg_device::Name;
use sg_lex::Cmp;
use sg_pattern::PatternText;
use sg_template::Template;
use sqlite_items::{Boxed, Items};

/// An expression on messages. A range is closed, its lower number first.
#[derive(Drop)]
pub enum Expr {
    /// The facility, 0 to 23 (RFC 5424, section 6.2.1), is in one of the ranges.
    Facility(Items<(u8, u8)>),
    /// The severity, 0 for emergency to 7 for debug, is in one of the ranges.
    Level(Items<(u8, u8)>),
    /// The pattern finds something in the value of that name. Where the name has none, it is the empty text.
    Field {
        name: Name,
        pattern: PatternText,
    },
    /// One of the tags is set.
    Tags(Items<Name>),
    /// The texts of two templates, compared byte by byte.
    Compare {
        left: Template,
        cmp: Cmp,
        right: Template,
    },
    /// What the expression at this place of the list of named expressions says.
    Named(u32),
    /// All hold. None at all holds too.
    And(Items<Expr>),
    /// One holds.
    Or(Items<Expr>),
    Not(Boxed<Expr>),
}
