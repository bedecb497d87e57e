// The flags of log statements.
ghost use Rattle.std.specs.Prelude.{◌≡◌};
ghost use Rattle.sg_options.specs.Settings.{has_word};

use sg_parse_base::{Spot, same_keyword};

/// Whether a flag is set, which is written with dashes.
pub fn has_flag(flags: &[Spot], word: &[u8]) -> bool
    ensures { result ≡ has_word word.now flags.now }
{
    for flag in flags {
        if same_keyword(flag.token.text.bytes(), word) {
            return true;
        }
    }
    false
}
