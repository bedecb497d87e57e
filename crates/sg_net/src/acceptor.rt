// The connections of a listener, and those for which it has no slot.
use sg_file::{IdleWait, Notice};
use std::alloc::{AllocError, Global};
use std::io::{self, ErrorKind};
use std::net::{SocketAddr, TcpListener, TcpStream};
use std::sync::atomic::{AtomicU64, Ordering};

// The most connections that one look closes.
const CLOSES: u32 = 64;

/// A listening socket, and what its slots know of one another. A connection for which no slot is free is
/// accepted and closed, and not left to wait.
#[derive(Drop)]
pub struct Acceptor {
    rt: HostRuntime,
    socket: TcpListener,
    // The slots that aren't done with their connections, and those of them that have one.
    slots: AtomicU64,
    taken: AtomicU64,
    // The looks for connections that no slot is free for, and the connections that were closed.
    looks: AtomicU64,
    closed: AtomicU64,
    // What the operator is told of connections that were closed, and of those that were given up.
    refusals: Notice,
    faults: Notice,
}

impl Acceptor {
    pub(crate) fn new(
        alloc: Global,
        rt: HostRuntime,
        socket: TcpListener,
        ip: &[u8],
        port: u16,
    ) -> Result<Acceptor, AllocError> {
        let mut name = ip.to_vec(alloc)?;
        let behind = format!(in alloc; ":{port}")?;
        name.extend_from_slice(behind.as_bytes())?;
        Ok(Acceptor {
            rt,
            socket,
            slots: AtomicU64::new(0),
            taken: AtomicU64::new(0),
            looks: AtomicU64::new(0),
            closed: AtomicU64::new(0),
            refusals: Notice::new(alloc, rt, "source", &name)?,
            faults: Notice::new(alloc, rt, "source", &name)?,
        })
    }

    pub(crate) fn port(&self) -> io::Result<u16> {
        Ok(self.socket.local_addr()?.port())
    }

    /// One slot more.
    pub(crate) fn add(&self, rest: &IdleWait) {
        self.slots.fetch_add(1, Ordering::SeqCst);
        rest.watch(&self.socket, false);
    }

    /// A slot takes no more connections. With the last one the operator is told of what wasn't told yet.
    pub(crate) fn remove(&self) {
        if self.slots.fetch_sub(1, Ordering::SeqCst) == 1 {
            self.refusals
                .end(b"connections were closed: all slots were taken");
            self.faults.end(b"connections were given up");
        }
    }

    /// A slot has no connection any more.
    pub(crate) fn free(&self) {
        self.taken.fetch_sub(1, Ordering::SeqCst);
    }

    /// The next connection, for a slot that has none. It doesn't block.
    pub(crate) fn accept(&self, rest: &IdleWait) -> io::Result<(TcpStream, SocketAddr)> {
        let (stream, peer) = self.socket.accept()?;
        stream.set_nonblocking(true)?;
        rest.watch(&stream, false);
        self.taken.fetch_add(1, Ordering::SeqCst);
        Ok((stream, peer))
    }

    /// Closes the connections that wait, where no slot is free: one slot does in each round, of which
    /// `seen` are the looks of all when this one looked last. Answers the connections closed so far.
    pub(crate) fn close_others(&self, seen: &mut u64) -> u64 {
        let slots = self.slots.load(Ordering::SeqCst);
        if self.taken.load(Ordering::SeqCst) >= slots && self.is_turn(seen) {
            for _ in 0..CLOSES {
                match self.socket.accept() {
                    Ok((stream, peer)) => {
                        drop(stream);
                        self.tell_closed(peer, slots);
                    }
                    Err(error) if error.kind() == ErrorKind::ConnectionAborted => {}
                    Err(_) => break,
                }
            }
        }
        self.closed.load(Ordering::SeqCst)
    }

    fn is_turn(&self, seen: &mut u64) -> bool {
        let looks = self.looks.load(Ordering::SeqCst);
        if looks != *seen {
            *seen = looks;
            return false;
        }
        *seen = self.looks.fetch_add(1, Ordering::SeqCst).wrapping_add(1);
        true
    }

    fn tell_closed(&self, peer: SocketAddr, slots: u64) {
        self.closed.fetch_add(1, Ordering::SeqCst);
        let ip = peer.ip();
        match format!(in self.rt.alloc();
            "closed a connection of {ip}: all {slots} slots are taken"
        ) {
            Ok(words) => self.refusals.happens(words.as_bytes()),
            Err(_) => self
                .refusals
                .happens(b"closed a connection: all slots are taken"),
        }
    }

    /// Tells that the connection of this peer was given up, for this reason.
    pub(crate) fn tell_given_up(&self, peer: &[u8], reason: &[u8]) {
        match given_up(self.rt.alloc(), peer, reason) {
            Ok(words) => self.faults.happens(&words),
            Err(_) => self.faults.happens(reason),
        }
    }
}

fn given_up(alloc: Global, peer: &[u8], reason: &[u8]) -> Result<Vec<u8>, AllocError> {
    let mut words = b"gave up the connection of ".to_vec(alloc)?;
    words.extend_from_slice(peer)?;
    words.extend_from_slice(b": ")?;
    words.extend_from_slice(reason)?;
    Ok(words)
}
