// The real maker of regular expressions.
ghost use Rattle.std.specs.Prelude.{◌≡◌, ◌≤◌, [], IsSome};
ghost use Rattle.sg_device.specs.Faults.{Rose};
ghost use Rattle.sg_pattern.specs.Builds.{Builds, answer_of, refusing_machine};
ghost use Rattle.sg_pattern.specs.Kept.{bytes_of, made_of, most_bytes};

use crate::expressions::Expressions;
use crate::{BuildFault, Builder};
use regex::bytes::Regex;
use sg_outside::Machine;
use std::alloc::Global;

/// The real one. It makes an expression once of each text, whatever asks for it, keeps it for the
/// program's life, and counts the patterns that were refused for their size: by themselves, or since
/// all that it keeps would take more than 256 MiB.
pub struct Patterns {
    pub too_large: u64,
    made: Expressions,
}

impl Drop for Patterns {
    fn drop(self) {
        let Patterns {
            too_large: _too_large,
            made: _made,
        } = self;
    }
}

impl Patterns {
    /// Nothing is made yet.
    pub fn new(alloc: Global) -> Patterns
        ensures count { result.too_large ≡ 0 }
        ensures none { result.made ≡ [] }
    {
        Patterns {
            too_large: 0,
            made: Expressions::new(alloc),
        }
    }

    /// The bytes that are counted for what it keeps.
    pub fn bytes(&self) -> usize
        ensures value { result ≡ bytes_of self.now.made }
        ensures most { result ≤ most_bytes }
    {
        self.made.bytes()
    }

    fn count(&mut self)
        ensures rose { Rose self.old.too_large self.new.too_large }
        ensures grows { self.old.too_large ≤ self.new.too_large }
    {
        self.too_large = self.too_large.saturating_add(1);
    }
}

impl Machine for Patterns {
    ghost state = { λ p. refusing_machine p.too_large };
}

impl Builder for Patterns {
    ghost build_step = { λ old text ignore_case result new.
        Builds (refusing_machine old.too_large) (refusing_machine new.too_large) text ignore_case result };

    fn build(
        &mut self,
        alloc: Global,
        text: &str,
        ignore_case: bool,
    ) -> Result<&'static Regex, BuildFault>
        ensures step { Builds (refusing_machine self.old.too_large)
            (refusing_machine self.new.too_large) text.now ignore_case (answer_of result) }
        ensures means { Builds (refusing_machine self.old.too_large)
            (refusing_machine self.new.too_large) text.now ignore_case (answer_of result) }
        // A text of which an expression was made takes nothing more.
        ensures once { IsSome (made_of text.now ignore_case self.old.made) → self.new ≡ self.old }
    {
        if let Some(regex) = self.made.get(text, ignore_case) {
            return Ok(regex);
        }
        match self.made.make(alloc, text, ignore_case) {
            Ok(regex) => Ok(regex),
            Err(BuildFault::Syntax) => Err(BuildFault::Syntax),
            Err(BuildFault::NoMemory) => Err(BuildFault::NoMemory),
            Err(BuildFault::TooLarge) => {
                self.count();
                Err(BuildFault::TooLarge)
            }
        }
    }
}
