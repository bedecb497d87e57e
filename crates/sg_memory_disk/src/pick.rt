// What stands after a crash where a write wasn't stable.
ghost use Rattle.std.specs.Prelude.{◌≡◌};

/// What stands in the range of a write that wasn't stable, and in the gap before it.
#[derive(Drop)]
pub enum Pick {
    /// What was there before.
    Old,
    /// What was written.
    New,
    /// Bytes FF.
    Ones,
    /// Bytes 0.
    Zeros,
    /// These bytes, from the write's place on or from the old end, whichever comes first. Those behind
    /// the write's end don't count.
    Bytes(Vec<u8>),
}
