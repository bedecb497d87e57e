// What isn't known of threads is looked at behind them.
ghost use Rattle.std.specs.Prelude.{◌≡◌, true};

use std::sync::Wait;

/// Goes on where this holds. Else it says so on standard error and waits for ever, so that a run promises
/// nothing false.
pub(crate) fn hold<T: Wait + Eprint>(rt: &T, holds: bool)
    ensures { holds ≡ true }
{
    if holds {
        return;
    }
    let _ = eprintln!(rt;
        "turns that were taken on threads don't fit together: the run stands still until it is started again"
    );
    for _ in rt.forever() {}
    unreachable!()
}
