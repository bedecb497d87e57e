// What a report shows beside the numbers of a tally.

use sg_list::Seq;

/// What a report shows beside the numbers that the core has come to.
pub struct Shown {
    /// For each inlet the number of its source driver. They ascend, so that the inlets of one driver
    /// stand together.
    pub drivers: Seq<u32>,
    /// For each inlet whether it is a file, which has a stored position.
    pub files: Seq<bool>,
    /// For each inlet the number of its parts that were given up at a bad octet count.
    pub bad_frames: Seq<u64>,
    /// For each destination whose disk-buffer isn't reliable its number, and how many frames that
    /// buffer holds, in ascending order.
    pub held: Seq<(u32, u64)>,
    /// The destinations that were given up, in ascending order.
    pub sinks: Seq<u32>,
    /// The stores that have failed, in ascending order.
    pub stores: Seq<u32>,
    /// The inlets with a failed pull, in ascending order.
    pub inlets: Seq<u32>,
    /// The exit status.
    pub status: u8,
}

impl Drop for Shown {
    fn drop(self) {
        let Shown {
            drivers: _drivers,
            files: _files,
            bad_frames: _bad_frames,
            held: _held,
            sinks: _sinks,
            stores: _stores,
            inlets: _inlets,
            status: _status,
        } = self;
    }
}
