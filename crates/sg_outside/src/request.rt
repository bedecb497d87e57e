// What is asked for at an opening.
ghost use Rattle.std.specs.Prelude.{◌≡◌, IfOk};

use sg_device::{Name, NoMemory};

/// A store: a file of the daemon's own, made where it is missing if `create` says so.
#[derive(Drop)]
pub struct StoreSpec {
    pub name: Name,
    pub create: bool,
    /// The bytes with which a file is made, at least 128, so that no disk is too full for them later. In
    /// memory a store begins with 128.
    pub size: u64,
}

impl StoreSpec {
    /// An equal one.
    pub fn copy(&self) -> Result<StoreSpec, NoMemory>
        ensures { IfOk result (λ spec. spec ≡ self.now) }
    {
        Ok(StoreSpec {
            name: self.name.copy()?,
            create: self.create,
            size: self.size,
        })
    }
}

/// An inlet. With `once` a file ends at its end, and a slot after its first connection.
#[derive(Drop)]
pub enum InletSpec {
    /// The file of this path, whose lines are cut into pieces of at most `limit` bytes
    /// (`log-msg-size()`).
    File {
        path: Name,
        once: bool,
        limit: u32,
    },
    /// One of the slots that share the TCP listener on this address.
    Slot {
        ip: Name,
        port: u16,
        slot: u16,
        once: bool,
    },
}

impl InletSpec {
    /// An equal one.
    pub fn copy(&self) -> Result<InletSpec, NoMemory>
        ensures { IfOk result (λ spec. spec ≡ self.now) }
    {
        match self {
            InletSpec::File { path, once, limit } => Ok(InletSpec::File {
                path: path.copy()?,
                once: *once,
                limit: *limit,
            }),
            InletSpec::Slot {
                ip,
                port,
                slot,
                once,
            } => Ok(InletSpec::Slot {
                ip: ip.copy()?,
                port: *port,
                slot: *slot,
                once: *once,
            }),
        }
    }
}

/// An outlet. `reopen` is the time in seconds from one try to open it to the next
/// (`time-reopen()`), 0 where it is tried again at once.
#[derive(Drop)]
pub enum OutletSpec {
    /// The file of this path, appended to, and made with this mode where it is missing (`perm()`).
    /// With `fsync` a frame counts as taken once it is on the disk.
    File {
        path: Name,
        fsync: bool,
        mode: u16,
        /// The mode of the folders on the way to a file that is made (`dir-perm()`), where missing ones
        /// are made too (`create-dirs(yes)`).
        folders: Option<u16>,
        reopen: u32,
    },
    /// A TCP connection to this host.
    Tcp {
        host: Name,
        port: u16,
        reopen: u32,
    },
    /// Files whose paths come with the texts, each as `File`.
    ByPath {
        fsync: bool,
        mode: u16,
        folders: Option<u16>,
        reopen: u32,
        /// The seconds after which a file is closed that took nothing (`time-reap()`), 0 where none is.
        reap: u32,
    },
}

impl OutletSpec {
    /// An equal one.
    pub fn copy(&self) -> Result<OutletSpec, NoMemory>
        ensures { IfOk result (λ spec. spec ≡ self.now) }
    {
        match self {
            OutletSpec::File {
                path,
                fsync,
                mode,
                folders,
                reopen,
            } => Ok(OutletSpec::File {
                path: path.copy()?,
                fsync: *fsync,
                mode: *mode,
                folders: *folders,
                reopen: *reopen,
            }),
            OutletSpec::Tcp { host, port, reopen } => Ok(OutletSpec::Tcp {
                host: host.copy()?,
                port: *port,
                reopen: *reopen,
            }),
            OutletSpec::ByPath {
                fsync,
                mode,
                folders,
                reopen,
                reap,
            } => Ok(OutletSpec::ByPath {
                fsync: *fsync,
                mode: *mode,
                folders: *folders,
                reopen: *reopen,
                reap: *reap,
            }),
        }
    }
}
