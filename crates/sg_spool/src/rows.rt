// Where the entries of a disk-buffer stand.
ghost use Rattle.std.specs.Prelude.{◌≡◌, ◌≤◌};
ghost use Rattle.sg_spool.specs.Rows.{listed, committed};

use crate::Places;

/// The places of the list, and those of the list with all that is staged behind it, as if the gate at
/// its end were open; and the numbers of entries. Where nothing is staged both places are the same.
#[derive(Clone, Copy, Drop)]
pub struct Rows {
    pub list: Places,
    pub ahead: Places,
    /// The entries of the list.
    pub count: u64,
    /// The entries that are staged.
    pub staged: u64,
}

impl Rows {
    // A list of so many entries at these places, with nothing staged.
    pub(crate) fn listed(list: Places, count: u64) -> Rows
        ensures { result ≡ listed list count }
    {
        Rows {
            list,
            ahead: list,
            count,
            staged: 0,
        }
    }

    // The list, with nothing staged.
    pub(crate) fn unstaged(self) -> Rows
        ensures { result ≡ listed self.list self.count }
    {
        Rows::listed(self.list, self.count)
    }

    // All that was staged is in the list.
    pub(crate) fn committed(self) -> Rows
        ensures { result ≡ committed self }
    {
        Rows::listed(self.ahead, self.count.saturating_add(self.staged))
    }
}
