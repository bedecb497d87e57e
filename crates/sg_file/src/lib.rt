//! Real files as devices, and what all real devices share: what they count, when they wait, and what
//! they tell their operator. They tell nothing of content.
#![tactic(auto)]

mod beside;
mod clock;
mod counts;
mod folders;
mod fresh;
mod health;
mod identity;
mod inlet;
mod lines;
mod locks;
mod mark;
mod notice;
mod open;
mod outlet;
mod piece;
mod place;
mod read;
mod reminder;
mod reserved;
mod rest;
mod retry;
mod sockets;
mod store;
mod tail;
mod target;

pub use clock::moment;
pub use counts::{InletCounts, OutletCounts};
pub use health::Health;
pub use inlet::FileInlet;
pub use lines::takes_lines;
pub use mark::Mark;
pub use notice::Notice;
pub use open::path_text;
pub use outlet::FileOutlet;
pub use read::{read_file, read_some};
pub use reminder::Reminder;
pub use reserved::Reservation;
pub use rest::IdleWait;
pub use retry::Retry;
pub use store::FileDisk;
pub use target::{Appending, Target};
