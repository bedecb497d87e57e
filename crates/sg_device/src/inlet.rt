// Where bytes come from.
ghost use Rattle.std.specs.Prelude.{◌≡◌, ◌<◌, length};
ghost use Rattle.sg_device.specs.Inlet.{InletState, PullFills, PullTells, PullMoves, PullLeaves, PullAdds, HangsUp};

use crate::InletFault;

/// What a pull brought.
#[derive(Clone, Copy, PartialEq, Eq, Drop)]
pub enum Pull {
    /// So many bytes, at least one, all with this moment: microseconds since 1970-01-01T00:00:00Z,
    /// 0 to 250,000,000,000,000,000.
    Bytes { len: usize, at: i64 },
    /// A new part begins, as a connection's bytes do.
    Next,
    /// Nothing at present. More may come.
    Idle,
    /// Nothing follows, now and at every later pull.
    End,
}

/// A source of bytes in parts: a file is one part, a connection slot has a part for each connection.
pub trait Inlet {
    /// What the inlet has given, where it stands, and its counts.
    ghost state: { Self → InletState };

    /// Gives bytes from the front of the buffer on, or says why there are none. What stands behind
    /// them in the buffer afterwards isn't said.
    fn pull(&mut self, into: &mut [u8]) -> Result<Pull, InletFault>
        requires { 0 < length into.old }
        ensures fills { PullFills into.old into.new result }
        ensures told { PullTells (state self.old) (state self.new) into.new result }
        ensures place { PullMoves (state self.old) (state self.new) result }
        ensures left { PullLeaves (state self.old) (state self.new) into.new result }
        ensures adds { PullAdds (state self.old) (state self.new) result };

    /// The name of the peer that the present part comes from, as text.
    fn peer(&self) -> &[u8]
        ensures { result.now ≡ (state self.now).peer };

    /// Closes the present part: no more bytes of it come.
    fn hangup(&mut self)
        ensures { HangsUp (state self.old) (state self.new) };
}
