// A regular expression that is kept.
ghost use Rattle.std.specs.Prelude.{◌≡◌, ◌≤◌, IfOk, option_map};
ghost use Rattle.regex.specs.Bytes.{regex_pattern, regex_size};
ghost use Rattle.sg_pattern.specs.Builds.{MatchesAs};
ghost use Rattle.sg_pattern.specs.Kept.{is_of, made_of, same_case};

use regex::bytes::Regex;
use std::alloc::{AllocError, Global};
use std::boxed::Box;
use std::marker::Model;

/// A regular expression, which stays for the program's life, and what it was made of.
#[derive(Drop)]
pub(crate) struct KeptRegex {
    text: Vec<u8>,
    ignore_case: bool,
    // What is counted for it.
    bytes: usize,
    regex: &'static Regex,
}

impl Model for KeptRegex {
    ghost use Rattle.std.specs.Prelude.{◌≤◌};
    ghost use Rattle.regex.specs.Bytes.{regex_pattern, regex_size};
    ghost use Rattle.sg_pattern.specs.Builds.{MatchesAs};
    ghost use Rattle.sg_pattern.specs.Kept.{Made};

    ghost Value = { Made };

    ghost view = { λ k. record {
      text = k.text.items;
      ignore_case = k.ignore_case;
      bytes = k.bytes;
    } };

    ghost invariant = { λ k. MatchesAs k.ignore_case k.text.items (regex_pattern k.regex.now)
        × (regex_size k.regex.now ≤ k.bytes) };
}

// The expression, which isn't freed.
fn for_life(alloc: Global, regex: Regex) -> Result<&'static Regex, AllocError>
    ensures { IfOk result (λ kept. kept.now ≡ regex) }
{
    Ok(Box::leak(Box::new(alloc, regex)?))
}

fn is_same_case(one: bool, other: bool) -> bool
    ensures { result ≡ same_case one other }
{
    if one { other } else { !other }
}

impl KeptRegex {
    pub(crate) fn new(
        alloc: Global,
        text: &str,
        ignore_case: bool,
        regex: Regex,
        bytes: usize,
    ) -> Result<KeptRegex, AllocError>
        requires matches { MatchesAs ignore_case text.now (regex_pattern regex) }
        requires small { regex_size regex ≤ bytes }
        ensures { IfOk result (λ kept. kept ≡ record
            { text = text.now; ignore_case = ignore_case; bytes = bytes }) }
    {
        let text = text.as_bytes().to_vec(alloc)?;
        let regex = for_life(alloc, regex)?;
        Ok(KeptRegex {
            text,
            ignore_case,
            bytes,
            regex,
        })
    }

    pub(crate) fn regex(&self) -> &'static Regex
        ensures { MatchesAs self.now.ignore_case self.now.text (regex_pattern result.now) }
    {
        self.regex
    }

    fn is_of(&self, text: &str, ignore_case: bool) -> bool
        ensures { result ≡ is_of text.now ignore_case self.now }
    {
        self.text.as_slice() == text.as_bytes() && is_same_case(ignore_case, self.ignore_case)
    }
}

/// The first that was made of this text. Each is looked at: no more than 3,912 are kept, since 68,608 bytes or more are
/// counted for each.
pub(crate) fn find<'k>(
    kept: &'k [KeptRegex],
    text: &str,
    ignore_case: bool,
) -> Option<&'k KeptRegex>
    ensures { option_map (λ one. one.now) result ≡ made_of text.now ignore_case kept.now }
{
    for one in kept {
        if one.is_of(text, ignore_case) {
            return Some(one);
        }
    }
    None
}
