//! Reading records of RFC 5424, and writing messages as such.
#![tactic(auto)]

mod elements;
mod header;
mod laws;
mod names;
mod params;
mod reading;
mod refusal;
mod take;
mod values;
mod writing;

pub use laws::{data_is_said_again, lines_are_records, records_say_one_message};
pub use names::SdNames;
pub use reading::{read, refused};
pub use refusal::R5424Refusal;
pub use writing::write;
