// What a filter asks of a message at a time.
ghost use Rattle.std.specs.Prelude.{◌≡◌, IfOk};
ghost use Rattle.sg_msg.specs.Message.{has_tag};
ghost use Rattle.sg_template.specs.Texts.{text_of};
ghost use Rattle.sg_pattern.specs.Pattern.{is_found};
ghost use Rattle.sg_filter.specs.Checks.{is_in_some, has_any_tag, is_so, compares, check_holds};

use crate::copy::{copied_names, copied_ranges};
use sg_device::Name;
use sg_lex::Cmp;
use sg_msg::Message;
use sg_pattern::Matcher;
use sg_template::{Template, own_env, text_of};
use sqlite_items::Items;
use std::alloc::{AllocError, Global};
use std::cmp::Ordering;

/// A name, and what searches in its value.
#[derive(Drop)]
pub(crate) struct FieldSearch {
    pub(crate) name: Name,
    pub(crate) matcher: Matcher,
}

/// A call or a comparison of an expression, with its matcher.
pub(crate) enum Predicate {
    Facility(Items<(u8, u8)>),
    Level(Items<(u8, u8)>),
    Field(FieldSearch),
    Tags(Items<Name>),
    Compare {
        left: Template,
        cmp: Cmp,
        right: Template,
    },
}

impl Drop for Predicate {
    fn drop(self) {
        match self {
            Predicate::Facility(_0) => {}
            Predicate::Level(_0) => {}
            Predicate::Field(_0) => {}
            Predicate::Tags(_0) => {}
            Predicate::Compare {
                left: _left,
                cmp: _cmp,
                right: _right,
            } => {}
        }
    }
}

/// Room for two texts that are compared.
#[derive(Drop)]
pub(crate) struct TextRoom {
    left: Vec<u8>,
    right: Vec<u8>,
}

impl TextRoom {
    pub(crate) fn new(alloc: Global) -> TextRoom {
        TextRoom {
            left: Vec::new(alloc),
            right: Vec::new(alloc),
        }
    }
}

fn is_in_some(ranges: &[(u8, u8)], number: u8) -> bool
    ensures { result ≡ is_in_some ranges.now number }
{
    ranges
        .iter()
        .any(|range| range.0 <= number && number <= range.1)
}

// No list has `usize::MAX` tags.
fn has_tag(message: &Message, tag: &[u8]) -> Result<bool, AllocError>
    ensures { IfOk result (λ b. b ≡ has_tag tag.now message.now.tags) }
{
    'tags: for place in 0..usize::MAX {
        match message.tag(place) {
            None => return Ok(false),
            Some(set) => {
                if set == tag {
                    return Ok(true);
                }
            }
        }
    }
    Err(AllocError)
}

fn has_any_tag(message: &Message, tags: &[Name]) -> Result<bool, AllocError>
    ensures { IfOk result (λ b. b ≡ has_any_tag tags.now message.now.tags) }
{
    for tag in tags {
        if has_tag(message, tag.bytes())? {
            return Ok(true);
        }
    }
    Ok(false)
}

fn is_so(cmp: Cmp, order: Ordering) -> bool
    ensures { result ≡ is_so cmp order }
{
    match cmp {
        Cmp::Eq => order.is_eq(),
        Cmp::Ne => order.is_ne(),
        Cmp::Lt => order.is_lt(),
        Cmp::Gt => order.is_gt(),
        Cmp::Le => order.is_le(),
        Cmp::Ge => order.is_ge(),
    }
}

fn compares(
    left: &Template,
    cmp: Cmp,
    right: &Template,
    room: &mut TextRoom,
    message: &Message,
) -> Result<bool, AllocError>
    ensures { IfOk result (λ b. b ≡ compares left.now cmp right.now message.now) }
{
    let env = own_env(None);
    room.left.clear();
    left.render(message, &env, &mut room.left)?;
    room.right.clear();
    right.render(message, &env, &mut room.right)?;
    Ok(is_so(cmp, room.left.as_slice().cmp(room.right.as_slice())))
}

impl FieldSearch {
    fn finds(&mut self, message: &Message) -> Result<bool, AllocError>
        ensures value { IfOk result
            (λ b. b ≡ is_found self.old.matcher (text_of self.old.name message.now.pairs)) }
        ensures same { self.new ≡ self.old }
    {
        self.matcher.finds(text_of(message, self.name.bytes()))
    }

    fn share(&self, alloc: Global) -> Result<FieldSearch, AllocError>
        ensures { IfOk result (λ search. search ≡ self.now) }
    {
        Ok(FieldSearch {
            name: self.name.copy()?,
            matcher: self.matcher.share(alloc)?,
        })
    }
}

impl Predicate {
    /// Whether it holds of the message.
    #[tactic(auto, unfolding(crate::specs::Checks::check_holds))]
    pub(crate) fn holds(
        &mut self,
        room: &mut TextRoom,
        message: &Message,
    ) -> Result<bool, AllocError>
        ensures value { IfOk result (λ b. b ≡ check_holds self.old message.now) }
        ensures same { self.new ≡ self.old }
    {
        match self {
            Predicate::Facility(ranges) => Ok(is_in_some(ranges.as_slice(), message.pri() / 8)),
            Predicate::Level(ranges) => Ok(is_in_some(ranges.as_slice(), message.pri() % 8)),
            Predicate::Field(search) => search.finds(message),
            Predicate::Tags(tags) => has_any_tag(message, tags.as_slice()),
            Predicate::Compare { left, cmp, right } => compares(left, *cmp, right, room, message),
        }
    }

    /// An equal one, with caches of its own.
    pub(crate) fn share(&self, alloc: Global) -> Result<Predicate, AllocError>
        ensures { IfOk result (λ check. check ≡ self.now) }
    {
        match self {
            Predicate::Facility(ranges) => Ok(Predicate::Facility(copied_ranges(alloc, ranges)?)),
            Predicate::Level(ranges) => Ok(Predicate::Level(copied_ranges(alloc, ranges)?)),
            Predicate::Field(search) => Ok(Predicate::Field(search.share(alloc)?)),
            Predicate::Tags(tags) => Ok(Predicate::Tags(copied_names(alloc, tags)?)),
            Predicate::Compare { left, cmp, right } => Ok(Predicate::Compare {
                left: left.copy(alloc)?,
                cmp: *cmp,
                right: right.copy(alloc)?,
            }),
        }
    }
}
