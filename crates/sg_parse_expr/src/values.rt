// One value.
ghost use Rattle.std.specs.Prelude.{◌≡◌, IfOk};
ghost use Rattle.sg_parse_base.specs.Input.{ReadsTokens};
ghost use Rattle.sg_parse_expr.specs.Args as spec;

use crate::class::{Class, verdict};
use sg_lex::ConfigKind;
use sg_parse_base::{Cursor, ParseStop, Spot};
use std::alloc::{AllocError, Global};

#[tactic(auto, unfolding(crate::specs::Args::next_verdict))]
fn next_verdict(
    alloc: Global,
    cursor: &Cursor<'_>,
    class: Class,
) -> Result<Option<ConfigKind>, AllocError>
    ensures { IfOk result (λ verdict. verdict ≡ spec.next_verdict class cursor.now) }
{
    match cursor.peek() {
        Some(token) => verdict(alloc, class, token),
        None => Ok(Some(ConfigKind::Unexpected)),
    }
}

/// A value of this class, or what another token there is.
#[tactic(auto, unfolding(crate::specs::Args::value))]
pub fn value(alloc: Global, cursor: &mut Cursor<'_>, class: Class) -> Result<Spot, ParseStop>
    ensures { ReadsTokens (spec.value class cursor.old) result cursor.new }
{
    match next_verdict(alloc, cursor, class)? {
        Some(kind) => Err(cursor.fault(kind)),
        None => cursor.take(),
    }
}
