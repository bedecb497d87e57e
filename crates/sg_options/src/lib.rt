//! The options of a configuration: which of several counts, and what their values say.
#![tactic(auto)]

mod check;
mod names;
mod numbers;
mod reading;
mod settings;
mod stores;
mod zones;

pub use check::{Check, bad_value, first_bad_argument, first_bad_option};
pub use names::{facility_number, level_number};
pub use numbers::{Range, mode_of, number_in};
pub use reading::{
    facility_or, level_or, mode_or, number_or, one_of_or, text_of, text_or, truth_or, zone_or,
    zone_or_none,
};
pub use settings::{
    args_of, has_flag, is_called, item_of, last_argument, last_argument_value, last_option,
    last_value, nested_of, value_of,
};
pub use stores::{buffer_name, overflow_name, position_name};
pub use zones::zone_of;
