// The flags of log statements.
ghost use Rattle.std.specs.Prelude.{◌≡◌};
ghost use Rattle.sg_parse_base.specs.Input.{ReadsTokens};
ghost use Rattle.sg_parse_path.specs.Flags as spec;

use sg_parse_base::{Cursor, ItemRule, ParseStop, Spot, name, same_keyword, unsupported};
use std::alloc::Global;

#[tactic(auto, unfolding(crate::specs::Flags::is_flag))]
fn is_flag(text: &[u8]) -> bool
    ensures { result ≡ spec.is_flag text.now }
{
    same_keyword(text, b"final")
        || same_keyword(text, b"fallback")
        || same_keyword(text, b"catchall")
        || same_keyword(text, b"flow-control")
        || same_keyword(text, b"drop-unmatched")
}

#[tactic(auto, unfolding(crate::specs::Flags::flag))]
fn flag(cursor: &mut Cursor<'_>) -> Result<Spot, ParseStop>
    ensures { ReadsTokens (spec.flag cursor.old) result cursor.new }
{
    let spot = name(cursor)?;
    if !is_flag(spot.token.text.bytes()) {
        return Err(unsupported(&spot));
    }
    Ok(spot)
}

/// One flag.
#[derive(Drop)]
pub struct PathFlag;

impl ItemRule for PathFlag {
    type Item = Spot;

    ghost parser = { λ _. spec.flag };

    fn read(&self, _alloc: Global, cursor: &mut Cursor<'_>) -> Result<Spot, ParseStop> {
        flag(cursor)
    }
}
