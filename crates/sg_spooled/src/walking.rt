// The walk over a store's entries.
ghost use Rattle.std.specs.Prelude.{◌≡◌, [], false};
ghost use Rattle.sg_spooled.specs.Walking.{Walks};

use crate::Unlisted;
use crate::entry::list_entry;
use crate::saying::say_piece;
use sg_spool::Spool;
use sg_world::World;
use std::alloc::Global;

// Lists the entries one after another, and answers their number. What isn't said yet is the text.
pub(crate) fn walk<W: World>(
    alloc: Global,
    spool: &mut Spool<W::Store>,
    text: &mut Vec<u8>,
    world: &mut W,
) -> Result<u64, Unlisted>
    requires unstaged { spool.old.rows.staged ≡ 0 }
    requires opened { spool.old.closed ≡ false }
    requires empty { text.old.items ≡ [] }
    ensures { Walks W.Store.state spool.old spool.new (W.state world.old) (W.state world.new)
        text.new.items result }
{
    let count = spool.count();
    let mut gate = spool.head();
    let mut about = Vec::new(alloc);
    for number in 0..count {
        gate = list_entry(alloc, spool, gate, number, text, &mut about)?;
        say_piece(alloc, text, &mut about, world)?;
    }
    Ok(count)
}
