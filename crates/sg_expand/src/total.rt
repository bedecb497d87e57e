// The tokens that come out, and the running total.
ghost use Rattle.std.specs.Prelude.{◌≡◌, ◌-◌, ◌≤◌, [], ◌∷◌};
ghost use Rattle.sg_expand.specs.Total.{Emits, Charges};

use crate::fault::{ExpandStop, fault_at};
use sg_block::{FileLine, copy_token, line_of, token_size};
use sg_lex::{ConfigKind, Token};
use sg_list::Seq;
use std::marker::Model;

/// The bytes that all counted texts have together at most, one more for each counted in.
pub const TOTAL_LIMIT: u64 = 1_048_576;

/// The running total, which stays within the limit.
#[derive(Drop)]
pub struct Total {
    counted: u64,
}

impl Model for Total {
    ghost use Rattle.std.specs.Prelude.{ℕ, ◌≤◌};

    ghost Value = { ℕ };

    ghost view = { λ t. t.counted };

    ghost invariant = { λ t. t.counted ≤ 1048576 };
}

impl Total {
    pub fn new() -> Total
        ensures { result ≡ 0 }
    {
        Total { counted: 0 }
    }

    /// What can still be counted.
    pub fn room(&self) -> u64
        ensures value { result ≡ 1048576 - self.now }
        ensures within { self.now ≤ 1048576 }
    {
        TOTAL_LIMIT - self.counted
    }

    /// Adds to the total, unless it would pass the limit.
    pub fn charge(&mut self, size: u64, line: FileLine) -> Result<(), ExpandStop>
        ensures { Charges size line self.old self.new result }
    {
        if size > TOTAL_LIMIT - self.counted {
            return Err(ExpandStop::Fault(fault_at(ConfigKind::TooLong, line)));
        }
        self.counted += size;
        Ok(())
    }
}

/// Puts a token out.
pub fn put(out: &mut Seq<Token>, total: &mut Total, token: Token) -> Result<(), ExpandStop>
    ensures { Emits (token ∷ []) out.old total.old out.new total.new result }
{
    total.charge(token_size(&token), line_of(&token))?;
    out.push(token)?;
    Ok(())
}

/// Puts copies of tokens out, up to the one with which the total passes the limit.
pub fn put_all(out: &mut Seq<Token>, total: &mut Total, tokens: &[Token]) -> Result<(), ExpandStop>
    ensures { Emits tokens.now out.old total.old out.new total.new result }
{
    for token in tokens {
        put(out, total, copy_token(token)?)?;
    }
    Ok(())
}
