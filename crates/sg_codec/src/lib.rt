//! Entries of a disk-buffer as bytes: format 2 is written, formats 1 and 2 are read.
#![tactic(auto)]

mod fields;
mod kept;
mod laws;
mod lengths;
mod reading;
mod refusal;
mod writing;

pub use kept::Kept;
pub use laws::spellings_are_read;
pub use lengths::encoded_len;
pub use reading::decode;
pub use refusal::CodecRefusal;
pub use writing::encode;
