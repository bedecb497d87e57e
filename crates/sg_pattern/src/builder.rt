// Who makes regular expressions.
ghost use Rattle.std.specs.Prelude.{ℕ, Bool, List, Result as AResult};
ghost use Rattle.regex.specs.declared.bytes.regex.Regex.{Regex as ARegex};
ghost use Rattle.sg_pattern.specs.Builds.{Builds, answer_of};
ghost use Rattle.sg_pattern.specs.declared.fault.BuildFault.{BuildFault as ABuildFault};

use crate::BuildFault;
use regex::bytes::Regex;
use sg_outside::Machine;
use std::alloc::Global;

/// A maker of regular expressions over bytes.
pub trait Builder: Machine {
    // From the first builder a call over this text gets this answer, and leaves the second builder. Each
    // maker has its own: so only a call shows it.
    ghost build_step: { Self → List ℕ → Bool → AResult ARegex ABuildFault → Self → Type 0 };

    /// Reads a text as a regular expression, with the options of `regex` but for the case of letters. It
    /// stays for the program's life, and may be that of an earlier call. What is refused for its size is
    /// one, and is counted; for nothing else the count rises where one is made.
    fn build(
        &mut self,
        alloc: Global,
        text: &str,
        ignore_case: bool,
    ) -> Result<&'static Regex, BuildFault>
        ensures step { build_step self.old text.now ignore_case (answer_of result) self.new }
        ensures means { Builds (Self.state self.old) (Self.state self.new) text.now ignore_case
            (answer_of result) };
}
