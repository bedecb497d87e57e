// Names looked up beside the run.
use sg_file::IdleWait;
use std::alloc::{AllocError, Global};
use std::io;
use std::net::{SocketAddr, ToSocketAddrs};
use std::sync::{Arc, OnceLock};
use std::thread::{self, Threads};

// The addresses of a name, the last one to be tried first.
type FoundAddresses = io::Result<Vec<SocketAddr>>;

/// A name that a thread of its own looks up. The system's call can take as long as it pleases (30
/// seconds are usual where no name server answers), and can't be broken off. So nobody joins the
/// thread: it has nothing that another needs, and ends with its look-up, or with the program.
#[derive(Drop)]
pub(crate) struct LookUp {
    place: Arc<OnceLock<FoundAddresses>>,
}

// What the thread of a look-up takes along.
#[derive(Drop)]
struct LookUpJob {
    alloc: Global,
    rt: HostRuntime,
    host: String,
    port: u16,
    place: Arc<OnceLock<FoundAddresses>>,
    rest: IdleWait,
}

impl LookUp {
    /// Begins one, which ends the wait when it is done. It fails where there is no memory or no thread
    /// for it.
    pub(crate) fn begin<T: Threads>(
        threads: &T,
        alloc: Global,
        rt: HostRuntime,
        host: &str,
        port: u16,
        rest: &IdleWait,
    ) -> Result<LookUp, AllocError> {
        let place = Arc::new(alloc, OnceLock::new())?;
        let job = LookUpJob {
            alloc,
            rt,
            host: String::from_str(alloc, host)?,
            port,
            place: Arc::try_clone(&place)?,
            rest: rest.share()?,
        };
        let _left_alone = thread::spawn(threads, move || job.run())?;
        Ok(LookUp { place })
    }

    /// Whether the name has been looked up.
    pub(crate) fn is_done(&self) -> bool {
        self.place.get().is_some()
    }

    /// What was found.
    pub(crate) fn put(&self, into: &mut Vec<SocketAddr>) -> io::Result<()> {
        match self.place.get() {
            None => Ok(()),
            Some(Err(error)) => Err(*error),
            Some(Ok(addresses)) => {
                into.extend_from_slice(addresses)?;
                Ok(())
            }
        }
    }
}

impl LookUpJob {
    fn run(self) {
        // Nobody else writes there.
        let _written = self.place.try_set(self.find());
        self.rest.wake();
    }

    fn find(&self) -> FoundAddresses {
        let mut addresses = Vec::new(self.alloc);
        for address in (self.host.as_str(), self.port).to_socket_addrs(&self.rt)? {
            addresses.push(address)?;
        }
        addresses.reverse();
        Ok(addresses)
    }
}
