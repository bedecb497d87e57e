// Why tokens aren't read.
ghost use Rattle.std.specs.Prelude.{◌≡◌, Some};
ghost use Rattle.sg_lex.specs.declared.fault.ConfigKind.TheVariants.{Unsupported};
ghost use Rattle.sg_parse_base.specs.Input.{spot_line};
ghost use Rattle.sg_parse_base.specs.declared.fault.ParseStop.TheVariants.{NoMemory as StopNoMemory};

use crate::spot::Spot;
use crate::token::line_of;
use sg_lex::{ConfigKind, Line};
use std::alloc::AllocError;

/// What is wrong, and the place of the first token at which it is: none behind the last token.
#[derive(Clone, Copy, Drop)]
pub struct ParseFault {
    pub kind: ConfigKind,
    pub at: Option<Line>,
}

/// Where reading stops.
#[derive(Clone, Copy, Drop)]
pub enum ParseStop {
    Bad(ParseFault),
    NoMemory,
}

impl From<AllocError> for ParseStop {
    ghost from_gives = { λ _ stop. stop ≡ StopNoMemory };

    fn from(_: AllocError) -> Self {
        ParseStop::NoMemory
    }
}

/// The fault `Unsupported` at a token that was read.
pub fn unsupported(spot: &Spot) -> ParseStop
    ensures { result ≡ ParseStop.Bad
        (record { kind = Unsupported; at = Some (spot_line spot.now) }) }
{
    ParseStop::Bad(ParseFault {
        kind: ConfigKind::Unsupported,
        at: Some(line_of(&spot.token, spot.at)),
    })
}
