// A configuration, and why there is none.
ghost use Rattle.std.specs.Prelude.{◌≡◌};
ghost use Rattle.sg_config.specs.declared.config.LoadRefusal.TheVariants.{NoMemory as LacksMemory};

use sg_lex::ConfigFault;
use sg_machine::Setup;
use sg_outside::StoreSpec;
use sg_run_plan::{InletPlan, OutletPlan};
use sg_tree::Forest;
use std::alloc::AllocError;

/// A configuration. Inlets, destinations and stores count from 0 in the order of the text, and mean the same
/// in all of its parts.
#[derive(Drop)]
pub struct Config {
    /// The log paths.
    pub forest: Forest,
    /// The window and the store of each inlet, the queue and the disk-buffer of each destination.
    pub setup: Setup,
    pub inlets: Vec<InletPlan>,
    /// What each destination sends, and where to.
    pub outlets: Vec<OutletPlan>,
    pub stores: Vec<StoreSpec>,
}

/// Why tokens are no configuration.
#[derive(Clone, Copy, Drop)]
pub enum LoadRefusal {
    /// What is wrong with them.
    Bad(ConfigFault),
    NoMemory,
}

impl From<AllocError> for LoadRefusal {
    ghost from_gives = { λ _ refusal. refusal ≡ LacksMemory };

    fn from(_: AllocError) -> Self {
        LoadRefusal::NoMemory
    }
}
