// What devices and the machine refuse.
ghost use Rattle.std.specs.Prelude.{◌≡◌};
ghost use Rattle.sg_device.specs.declared.fault.FileRefusal.TheVariants.{NoMemory as FileNoMemory};
ghost use Rattle.sg_device.specs.declared.fault.OpenRefusal.TheVariants.{NoMemory as OpenNoMemory};
ghost use Rattle.sg_device.specs.declared.fault.SayRefusal.TheVariants.{NoMemory as SayNoMemory};
ghost use Rattle.sg_device.specs.declared.fault.SendRefusal.TheVariants.{NoMemory as SendNoMemory};

use std::alloc::AllocError;
use thiserror::Error;

/// Memory ran out. It is std's own error, so that `?` passes it on as it is.
pub type NoMemory = AllocError;

/// A pull failed. The inlet's count of faults rose.
#[derive(Clone, Copy, Debug, PartialEq, Eq, Drop, Error)]
#[error("the inlet failed")]
pub struct InletFault;

/// A reopening failed. The outlet's count of faults rose.
#[derive(Clone, Copy, Debug, PartialEq, Eq, Drop, Error)]
#[error("the outlet failed")]
pub struct OutletFault;

/// A call of a disk failed. The disk's count of faults rose.
#[derive(Clone, Copy, Debug, PartialEq, Eq, Drop, Error)]
#[error("the disk failed")]
pub struct DiskFault;

/// Why a frame wasn't taken.
#[derive(Clone, Copy, Debug, PartialEq, Eq, Drop, Error)]
pub enum SendRefusal {
    #[error("the outlet failed")]
    Fault,
    /// It is too early to send the rest. This is no fault.
    #[error("it is too early")]
    Later,
    #[error("no memory")]
    NoMemory,
}

impl From<AllocError> for SendRefusal {
    ghost from_gives = { λ _ refusal. refusal ≡ SendNoMemory };

    fn from(_: AllocError) -> Self {
        SendRefusal::NoMemory
    }
}

/// Why a file wasn't read.
#[derive(Clone, Copy, Debug, PartialEq, Eq, Drop, Error)]
pub enum FileRefusal {
    #[error("the file can't be read")]
    Failed,
    #[error("the file is too long")]
    TooLong,
    #[error("no memory")]
    NoMemory,
}

impl From<AllocError> for FileRefusal {
    ghost from_gives = { λ _ refusal. refusal ≡ FileNoMemory };

    fn from(_: AllocError) -> Self {
        FileRefusal::NoMemory
    }
}

/// Why a device wasn't opened.
#[derive(Clone, Copy, Debug, PartialEq, Eq, Drop, Error)]
pub enum OpenRefusal {
    #[error("the device can't be opened")]
    Failed,
    #[error("no memory")]
    NoMemory,
}

impl From<AllocError> for OpenRefusal {
    ghost from_gives = { λ _ refusal. refusal ≡ OpenNoMemory };

    fn from(_: AllocError) -> Self {
        OpenRefusal::NoMemory
    }
}

/// Why bytes weren't said.
#[derive(Clone, Copy, Debug, PartialEq, Eq, Drop, Error)]
pub enum SayRefusal {
    #[error("the bytes can't be said")]
    Fault,
    #[error("no memory")]
    NoMemory,
}

impl From<AllocError> for SayRefusal {
    ghost from_gives = { λ _ refusal. refusal ≡ SayNoMemory };

    fn from(_: AllocError) -> Self {
        SayRefusal::NoMemory
    }
}
