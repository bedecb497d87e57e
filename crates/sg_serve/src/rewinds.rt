// Sources that begin anew.
ghost use Rattle.std.specs.Prelude.{◌≡◌, ◌<◌, ◌+◌, ◌^◌, length};
ghost use Rattle.sg_standing.specs.Sources.{begun_in};
ghost use Rattle.sg_serve.specs.Rewinds.{position_at, BeginsSource};

use sg_core::Core;
use sg_counter::Stored;
use sg_device::Disk;

/// Lets a source begin anew where its inlet gives from place 0 and another position is stored. `false`
/// where its store fails.
pub fn begin<D: Disk>(core: &mut Core<D>, i: u32, place: u64) -> bool
    requires inlet { i < length core.old.sources }
    requires none { begun_in core.old.sources i ≡ 0 }
    requires few { core.old.calls + 1 < 2 ^ 54 }
    ensures { BeginsSource core.old core.new i (position_at core.old i) place result }
{
    if place > 0 || core.position(i) == 0 {
        return true;
    }
    match core.rewind(i) {
        Stored::Wrote(_) => true,
        Stored::Unchanged => true,
        Stored::Broken => false,
    }
}
