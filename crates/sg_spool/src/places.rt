// The places of a ring.
ghost use Rattle.std.specs.Prelude.{◌≡◌, ◌+◌, ◌≤◌, ◌<◌, ◌^◌, Some};
ghost use Rattle.sg_spool.specs.Places.{IsOrdered, live, gate_past, skip};

/// Where a ring's list begins and ends, in bytes from the beginning of the file.
#[derive(Clone, Copy, PartialEq, Eq, Drop)]
pub struct Places {
    /// The gate of the jump to 64, where there is one.
    pub jump: Option<u64>,
    /// The first gate.
    pub head: u64,
    /// The closed gate that ends the list.
    pub end: u64,
}

impl Places {
    /// The bytes that the entries take, with their gates and lengths.
    pub fn live(self) -> u64
        requires { IsOrdered self }
        ensures { result ≡ live self }
    {
        match self.jump {
            None => self.end - self.head,
            Some(jump) => (jump - self.head) + (self.end - 64),
        }
    }

    // The gate at which a walk that comes to this place goes on.
    pub(crate) fn gate_past(self, place: u64) -> u64
        ensures { result ≡ gate_past self.jump place }
    {
        match self.jump {
            None => place,
            Some(jump) => { if jump == place { 64 } else { place } }
        }
    }

    // The places once so many bytes of entries are off the front.
    pub(crate) fn skip(self, bytes: u64) -> Places
        requires ordered { IsOrdered self }
        requires enough { bytes ≤ live self }
        ensures places { result ≡ skip self bytes }
        ensures ordered { IsOrdered result }
        ensures live { live result + bytes ≡ live self }
    {
        match self.jump {
            None => Places {
                jump: None,
                head: self.head + bytes,
                end: self.end,
            },
            Some(jump) => {
                let before = jump - self.head;
                if bytes < before {
                    return Places {
                        jump: Some(jump),
                        head: self.head + bytes,
                        end: self.end,
                    };
                }
                Places {
                    jump: None,
                    head: 64 + (bytes - before),
                    end: self.end,
                }
            }
        }
    }
}
