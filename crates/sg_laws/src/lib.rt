//! What runs come to, as laws: of one run the sentence that the program carries, how it rests and how many rounds it takes; of runs that
//! follow one another, each stopped at any moment, what a core opens over what a crash left, and that no record of a file is lost between
//! them. The functions here do nothing: their contracts are laws.
#![tactic(auto)]

mod bounds;
mod calls;
mod covering;
mod following;
mod fronts;
mod reopening;
mod resting;
mod resuming;
mod runs;
mod texts;

pub use bounds::{runs_are_bounded, sources_are_bounded, untroubled_runs_end};
pub use calls::{calls_admit, credit_lasts};
pub use covering::{
    new_stores_are_covered, plan_runs_add_up, plan_runs_cover, plan_runs_end_clean,
    plan_runs_happen, plan_runs_rest, plan_runs_stay_covered, plan_runs_take_once,
};
pub use following::{
    all_runs_add_up, fresh_runs_cover, fresh_stores_are_covered, one_run_covers,
    whole_runs_take_once,
};
pub use fronts::{frames_are_settled, fronts_are_next, settles_are_taken};
pub use reopening::{images_open_as_they_stand, openings_are_safe};
pub use resting::{clean_runs_end, failed_stores_count, quiet_runs_rest};
pub use resuming::{
    ends_rise, moments_are_free, pieces_grow, reading_ends, reading_resumes, rest_follows,
};
pub use runs::runs_deliver;
pub use texts::{drops_are_due, texts_are_taken, windows_stay};
