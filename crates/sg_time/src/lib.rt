//! Stamps: moments with an offset from UTC, and their ISO and BSD texts.
#![tactic(auto)]

mod fraction;
mod local;
mod number;
mod read;
mod stamp;
mod text;

pub use local::LocalTime;
pub use read::{read_bsd, read_iso};
pub use stamp::Stamp;
pub use text::{
    bsd_text, four_digits, iso_text, month_abbrev, offset_bytes, six_digits, two_digits,
};
