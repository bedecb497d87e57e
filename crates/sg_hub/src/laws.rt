// Laws, by functions that do nothing.
ghost use Rattle.sg_booth.specs.Desks.{ReceiptsStand};
ghost use Rattle.sg_core.specs.Calls.{Serves};
ghost use Rattle.sg_hub.specs.Laws.{HistoriesStand, HistoriesKeepSetup, LiesStanding, SeatsGoOn};

use crate::office::CoreOffice;
use sg_booth::lies_as_given;
use sg_core::calls_are_events;
use sg_device::Disk;

/// A law: a core that a history gives stands for the events of that history's calls. The function does
/// nothing.
pub fn histories_stand()
    ensures { HistoriesStand }
{
    calls_are_events();
}

/// A law: a core that a history gives has the setup that it had. The function does nothing.
pub fn histories_keep_setup()
    ensures { HistoriesKeepSetup }
{}

/// A law: between any two steps of any threads, a core that lies in its hub stands for the events of the
/// history. The function does nothing.
pub fn lies_standing<D: Disk>()
    ensures { LiesStanding }
{
    lies_as_given::<CoreOffice<D>>();
    histories_stand();
}

/// A law: a seat's calls, one after another, stand in the history in their order. The function does
/// nothing.
pub fn seats_go_on()
    ensures { SeatsGoOn }
{}

/// A law: the calls of a seat of which a receipt was joined into the closing one, on any way, stand in the
/// history, each at its place, once, and at none of the closing seat's own, also where the seat itself was
/// dropped. The function does nothing.
pub fn receipts_stand<D: Disk>()
    ensures { ReceiptsStand Serves }
{
    sg_booth::receipts_stand::<CoreOffice<D>>();
}
