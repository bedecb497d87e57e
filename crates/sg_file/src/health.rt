// What the operator is told of a device.
ghost use Rattle.std.specs.Prelude.{◌≡◌, true, false, IfOk};

use crate::lines::DeviceNotices;
use std::alloc::{AllocError, Global};
use std::io;

/// A device, and whether it fails. The operator is told by one line on standard error when it begins
/// to fail, and by one when it works again: the moment, the device, and the system's own words.
#[derive(Drop)]
pub struct Health {
    rt: HostRuntime,
    lines: DeviceNotices,
    failing: bool,
}

impl Health {
    /// Of a device of this kind and name that works.
    pub fn new(
        alloc: Global,
        rt: HostRuntime,
        kind: &str,
        name: &[u8],
    ) -> Result<Health, AllocError>
        ensures { IfOk result (λ health. health.failing ≡ false) }
    {
        Ok(Health {
            rt,
            lines: DeviceNotices::new(alloc, rt, kind, name)?,
            failing: false,
        })
    }

    /// Something could not be done, for this reason.
    pub fn fails(&mut self, what: &str, reason: &io::Error)
        ensures failing { self.new.failing ≡ true }
        ensures device { self.new.lines.device ≡ self.old.lines.device }
    {
        if self.failing {
            return;
        }
        self.failing = true;
        let alloc = self.rt.alloc();
        if let Ok(words) = format!(in alloc; "cannot {what}: {reason}") {
            self.lines.tell(words.as_bytes());
        } else {
            self.lines.tell(what.as_bytes());
        }
    }

    /// Something was done.
    pub fn works(&mut self)
        ensures failing { self.new.failing ≡ false }
        ensures device { self.new.lines.device ≡ self.old.lines.device }
    {
        if self.failing {
            self.failing = false;
            self.lines.tell(b"works again");
        }
    }
}
