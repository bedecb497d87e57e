// The statements in which drivers stand.
ghost use Rattle.std.specs.Prelude.{◌≡◌};
ghost use Rattle.sg_plan.specs.Owners.{object_place, owner_of, same_owner, is_named, is_inline};

use sg_device::Name;
use sg_parse_obj::Object;
use sg_parse_path::RawRef;

/// The statement in which a driver stands.
#[derive(Drop)]
pub enum Owner {
    /// A source or destination statement of that name.
    Named(Name),
    /// What stands in a log statement in the place of a name, by the place of the brace that opens it
    /// among all tokens, counted from 0.
    Inline(u32),
}

/// Where its name stands, or the brace in place of one.
fn object_place(object: &Object) -> u32
    ensures { result ≡ object_place object.now }
{
    match object {
        Object::Options(_) => 0,
        Object::Source { name, .. } => name.at,
        Object::Destination { name, .. } => name.at,
        Object::Filter { name, .. } => name.at,
        Object::Rewrite { name, .. } => name.at,
        Object::Parser { name, .. } => name.at,
        Object::Template { name, .. } => name.at,
    }
}

impl Owner {
    fn is_named(&self, name: &[u8]) -> bool
        ensures { result ≡ is_named self.now name.now }
    {
        match self {
            Owner::Named(own) => own.bytes() == name,
            Owner::Inline(_) => false,
        }
    }

    fn is_inline(&self, place: u32) -> bool
        ensures { result ≡ is_inline self.now place }
    {
        match self {
            Owner::Named(_) => false,
            Owner::Inline(own) => *own == place,
        }
    }

    /// Whether this is what an element of a log statement refers to.
    pub fn is_of(&self, reference: &RawRef) -> bool
        ensures { result ≡ same_owner self.now (owner_of reference.now) }
    {
        match reference {
            RawRef::Named(spot) => self.is_named(spot.token.text.bytes()),
            RawRef::Inline(object) => self.is_inline(object_place(object)),
        }
    }
}
