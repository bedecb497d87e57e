// Lists of sources and of destinations.
ghost use Rattle.std.specs.Prelude.{◌≡◌, ◌++◌, ◌∷◌, [], IfOk, length};
ghost use Rattle.sg_machine.specs.declared.setup.Setup.{Setup};
ghost use Rattle.sg_turns.specs.Actors.{IsDest, AreDests};

use sg_actor::{DestActor, SourceActor};
use sg_device::{Inlet, NoMemory, Outlet};
use sg_route::Router;
use std::alloc::{AllocError, Global};
use std::collections::VecDeque;

/// Ends sources with all that they hold.
pub fn close_sources<R: Router + Drop, I: Inlet + Drop>(sources: Vec<SourceActor<R, I>>) {
    let mut rest = VecDeque::from(sources);
    while let Some(source) = rest.pop_front() {
        let _inlet = source.into_inlet();
    }
    rest.destroy_empty();
}

/// Ends destinations with all that they hold.
pub fn close_dests<O: Outlet + Drop>(dests: Vec<DestActor<O>>) {
    let mut rest = VecDeque::from(dests);
    while let Some(dest) = rest.pop_front() {
        let _outlet = dest.into_outlet();
    }
    rest.destroy_empty();
}

// The destinations with one more behind them.
fn with_dest<O: Outlet + Drop>(
    mut dests: Vec<DestActor<O>>,
    dest: DestActor<O>,
) -> Result<Vec<DestActor<O>>, NoMemory>
    ensures { IfOk result (λ held. held.items ≡ dests.items ++ dest ∷ []) }
{
    match dests.push(dest) {
        Ok(()) => Ok(dests),
        Err(failed) => {
            let _outlet = failed.value.into_outlet();
            close_dests(dests);
            Err(AllocError)
        }
    }
}

/// The destinations of a core that has two.
pub fn two_dests<O: Outlet + Drop>(
    alloc: Global,
    first: DestActor<O>,
    second: DestActor<O>,
) -> Result<Vec<DestActor<O>>, NoMemory>
    requires first { IsDest O.state 0 first }
    requires second { IsDest O.state 1 second }
    ensures { IfOk result (λ held. (setup : Setup) → length setup.dests ≡ 2
        → AreDests O.state setup held.items) }
{
    match with_dest(Vec::new(alloc), first) {
        Ok(one) => {
            let held = with_dest(one, second)?;
            Ok(held)
        }
        Err(e) => {
            let _outlet = second.into_outlet();
            Err(e)
        }
    }
}
