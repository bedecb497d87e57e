// The ranges of the numbers of options.

use sg_options::Range;

pub const WINDOW_SIZE: Range = Range {
    low: 1,
    high: 100_000,
};

pub const FETCH_LIMIT: Range = Range {
    low: 1,
    high: 1_000,
};

pub const MESSAGE_SIZE: Range = Range {
    low: 1,
    high: 1_048_576,
};

pub const CONNECTIONS: Range = Range { low: 1, high: 100 };

pub const PORTS: Range = Range {
    low: 1,
    high: 65_535,
};

pub const FIFO_SIZE: Range = Range {
    low: 1,
    high: 1_000_000,
};

pub const FRACTION_DIGITS: Range = Range { low: 0, high: 6 };

pub const BUFFER_SIZE: Range = Range {
    low: 1,
    high: 1_073_741_824,
};

/// How many frames a disk-buffer that isn't reliable holds in memory.
pub const MEMORY_LENGTH: Range = Range {
    low: 1,
    high: 100_000,
};

// In seconds.
pub const REOPEN_TIME: Range = Range {
    low: 1,
    high: 86_400,
};

// In seconds, 0 for never.
pub const REAP_TIME: Range = Range {
    low: 0,
    high: 31_536_000,
};

/// How many bytes the name of a store may have.
pub const STORE_NAME_LIMIT: usize = 200;
