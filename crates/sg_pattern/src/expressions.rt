// The regular expressions that were made.
ghost use Rattle.std.specs.Prelude.{◌≡◌, ◌≤◌, ◌+◌, ◌∷◌, ◌++◌, [], is_some, IfOk, IfErr, IfSome, OnOk, OnErr};
ghost use Rattle.regex.specs.Bytes.{regex_pattern};
ghost use Rattle.sg_pattern.specs.Builds.{MatchesAs};
ghost use Rattle.sg_pattern.specs.Kept.{HasOneMorePattern, IsNotMade, bytes_of, made_of, most_bytes};

use crate::BuildFault;
use crate::kept::{KeptRegex, find};
use crate::making::make;
use regex::bytes::Regex;
use std::alloc::{AllocError, Global};
use std::marker::Model;

// The bytes that may be counted for all of them together.
const MOST: usize = 268_435_456;

/// The regular expressions that were made, and the bytes that are counted for them.
pub(crate) struct Expressions {
    kept: Vec<KeptRegex>,
    bytes: usize,
}

impl Drop for Expressions {
    fn drop(self) {
        let Expressions {
            kept: _kept,
            bytes: _bytes,
        } = self;
    }
}

impl Model for Expressions {
    ghost use Rattle.std.specs.Prelude.{◌≡◌, ◌≤◌, List};
    ghost use Rattle.sg_pattern.specs.Kept.{Made, bytes_of, most_bytes};

    ghost Value = { List Made };

    ghost view = { λ e. e.kept.items };

    ghost invariant = { λ e. (e.bytes ≡ bytes_of e.kept.items) × (e.bytes ≤ most_bytes) };
}

// Adds one.
fn push(kept: &mut Vec<KeptRegex>, one: KeptRegex) -> Result<(), AllocError>
    ensures ok { OnOk result (kept.new.items ≡ kept.old.items ++ one ∷ []) }
    ensures err { OnErr result (kept.new.items ≡ kept.old.items) }
{
    kept.push(one)?;
    Ok(())
}

impl Expressions {
    pub(crate) fn new(alloc: Global) -> Expressions
        ensures { result ≡ [] }
    {
        Expressions {
            kept: Vec::new(alloc),
            bytes: 0,
        }
    }

    pub(crate) fn bytes(&self) -> usize
        ensures value { result ≡ bytes_of self.now }
        ensures most { result ≤ most_bytes }
    {
        self.bytes
    }

    /// The one that was made of this text, if one was.
    pub(crate) fn get(&self, text: &str, ignore_case: bool) -> Option<&'static Regex>
        ensures matches { IfSome result
            (λ regex. MatchesAs ignore_case text.now (regex_pattern regex.now)) }
        ensures found { is_some result ≡ is_some (made_of text.now ignore_case self.now) }
    {
        match find(&self.kept, text, ignore_case) {
            Some(one) => Some(one.regex()),
            None => None,
        }
    }

    // Keeps one more.
    fn keep(&mut self, one: KeptRegex, bytes: usize) -> Result<(), AllocError>
        requires bytes { one.bytes ≡ bytes }
        requires room { bytes_of self.old + bytes ≤ most_bytes }
        ensures ok { OnOk result (self.new ≡ self.old ++ one ∷ []) }
        ensures err { OnErr result (self.new ≡ self.old) }
    {
        push(&mut self.kept, one)?;
        self.bytes += bytes;
        Ok(())
    }

    /// Makes one more, where there is room for what is counted for it.
    pub(crate) fn make(
        &mut self,
        alloc: Global,
        text: &str,
        ignore_case: bool,
    ) -> Result<&'static Regex, BuildFault>
        ensures matches { IfOk result
            (λ regex. MatchesAs ignore_case text.now (regex_pattern regex.now)) }
        ensures more { OnOk result (HasOneMorePattern text.now ignore_case self.old self.new) }
        ensures same { OnErr result (self.new ≡ self.old) }
        ensures refused { IfErr result (IsNotMade ignore_case text.now) }
    {
        let left = MOST - self.bytes();
        let (regex, bytes) = match make(alloc, text, ignore_case, left) {
            Ok(made) => made,
            Err(fault) => return Err(fault),
        };
        let one = KeptRegex::new(alloc, text, ignore_case, regex, bytes)?;
        let regex = one.regex();
        self.keep(one, bytes)?;
        Ok(regex)
    }
}
