// One wait for all sockets.
use mio::unix::SourceFd;
use mio::{Events, Interest, Poll, Registry, Token, Waker};
use std::alloc::Global;
use std::os::fd::AsRawFd;
use std::sync::Mutex;
use std::time::Duration;
use std::{io, thread};

// The most sockets that one wait is told of. The others are told at the next one.
const EVENTS: usize = 64;

// Nobody asks which socket is ready.
const ANY: Token = Token(0);

// How long a thread sleeps while another one waits for the sockets, in milliseconds.
const NAP: u64 = 10;

/// The sockets that are watched, until they are closed, and the wait for any of them.
#[derive(Drop)]
pub(crate) struct Sockets {
    registry: Registry,
    waker: Waker,
    polled: Mutex<Polled>,
}

#[derive(Drop)]
struct Polled {
    poll: Poll,
    events: Events,
}

impl Sockets {
    pub(crate) fn new(alloc: Global, rt: HostRuntime) -> io::Result<Sockets> {
        let poll = Poll::new(&rt)?;
        let registry = poll.registry().try_clone()?;
        let waker = Waker::new(&registry, ANY)?;
        let events = Events::with_capacity(alloc, EVENTS)?;
        Ok(Sockets {
            registry,
            waker,
            polled: Mutex::new(Polled { poll, events }),
        })
    }

    pub(crate) fn watch<S: AsRawFd>(&self, socket: &S, writes: bool) -> io::Result<()> {
        let fd = socket.as_raw_fd();
        let interest = if writes {
            Interest::READABLE | Interest::WRITABLE
        } else {
            Interest::READABLE
        };
        self.registry.register(&mut SourceFd(&fd), ANY, interest)
    }

    /// Ends the wait that is under way, or else the next one.
    pub(crate) fn wake(&self) {
        let _failed = self.waker.wake();
    }

    /// Waits until a socket is ready, or as long as this. Where another thread waits already, this one
    /// sleeps.
    pub(crate) fn wait(&self, rt: &HostRuntime, most: Duration) {
        match self.polled.try_lock() {
            Some(mut guard) => {
                let polled = &mut *guard;
                if polled.poll.poll(&mut polled.events, Some(most)).is_err() {
                    nap(rt, most);
                }
            }
            None => nap(rt, most),
        }
    }
}

fn nap(rt: &HostRuntime, most: Duration) {
    thread::sleep(rt, most.min(Duration::from_millis(NAP)));
}
