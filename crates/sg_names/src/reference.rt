// What stands where a name is referred to.
ghost use Rattle.std.specs.Prelude.{◌≡◌};
ghost use Rattle.sg_names.specs.Terms.{reference_of};

use crate::kind::NameKind;
use crate::names::Names;
use sg_lex::Line;
use sg_parse_base::{Spot, line_of};

/// A place at which a statement is referred to by its name.
#[derive(Clone, Copy, Drop)]
pub struct Reference {
    pub line: Line,
    /// The number of the statement among those of its kind: none has the name where there is no number.
    pub place: Option<u32>,
}

/// A call or a comparison in an expression.
#[derive(Clone, Copy, Drop)]
pub struct Term {
    /// Where it begins.
    pub line: Line,
    /// The filter statement that it refers to, if it does.
    pub filter: Option<Reference>,
}

pub fn reference_of(names: &Names, kind: NameKind, spot: &Spot) -> Reference
    ensures { result ≡ reference_of names.now kind spot.now }
{
    Reference {
        line: line_of(&spot.token, spot.at),
        place: names.place(kind, spot.token.text.bytes()),
    }
}
