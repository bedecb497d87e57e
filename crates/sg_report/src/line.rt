// What one line says of a source driver.
ghost use Rattle.std.specs.Prelude.{◌≡◌};
ghost use Rattle.sg_report.specs.Report.{joined};

/// A source driver: its number, sums over its inlets, and the stored position where it is a file.
#[derive(Clone, Copy, Drop)]
pub struct SourceLine {
    pub driver: u32,
    pub records: u64,
    pub bad_frames: u64,
    pub position: Option<u64>,
}

impl SourceLine {
    /// With one more inlet of the same driver. Sums stand still at 2^64 - 1.
    pub fn join(self, inlet: SourceLine) -> SourceLine
        ensures { result ≡ joined self inlet }
    {
        SourceLine {
            driver: self.driver,
            records: self.records.saturating_add(inlet.records),
            bad_frames: self.bad_frames.saturating_add(inlet.bad_frames),
            position: self.position,
        }
    }
}
