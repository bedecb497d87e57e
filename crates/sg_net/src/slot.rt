// A slot of a listener: one connection after another.
ghost use Rattle.std.specs.Prelude.{◌≡◌, ◌<◌, [], length, false, IfOk, IsErr};
ghost use Rattle.sg_device.specs.Inlet.{PullIsWhole};
ghost use Rattle.sg_file.specs.Counts.{inlet_state, new_inlet};
ghost use Rattle.sg_file.specs.Inlet.{IsNoBytes};
ghost use Rattle.sg_net.specs.Slot.{slot_of, AreBytesGiven};

use crate::acceptor::Acceptor;
use sg_device::{Inlet, InletFault, NoMemory, Pull};
use sg_file::{Health, IdleWait, InletCounts, moment, read_some};
use std::alloc::Global;
use std::io::{self, ErrorKind};
use std::net::{IpAddr, TcpStream};
use std::sync::Arc;
use std::time::Instant;

// A connection that has given nothing for so many seconds is closed where another one was.
const IDLE: u64 = 600;

/// A slot of a listener. It serves one connection at a time, each as a part; one for which no slot is
/// free is closed. With `once` it ends after its first one.
#[derive(Drop)]
pub struct SlotInlet {
    rt: HostRuntime,
    acceptor: Arc<Acceptor>,
    stream: Option<TcpStream>,
    // When the connection was accepted or gave bytes last.
    active: Option<Instant>,
    // The looks for others and the connections that were closed, as this slot saw them last.
    looks: u64,
    closed: u64,
    once: bool,
    // A connection was accepted.
    served: bool,
    counts: InletCounts,
    // The peer of the connection accepted last, until it is counted.
    next: Vec<u8>,
    health: Health,
    rest: IdleWait,
}

/// What a connection gives: so many bytes, none at present, or none for good.
pub enum ReceivedBytes {
    Bytes(usize),
    Nothing,
    Over,
}

impl SlotInlet {
    /// A slot of this listener. The name is what the operator is told.
    pub fn open(
        alloc: Global,
        rt: HostRuntime,
        acceptor: Arc<Acceptor>,
        name: &[u8],
        once: bool,
        rest: IdleWait,
    ) -> Result<SlotInlet, NoMemory>
        ensures { IfOk result (λ slot. slot_of slot ≡ new_inlet [] 0 false) }
    {
        let health = Health::new(alloc, rt, "source", name)?;
        acceptor.add(&rest);
        Ok(SlotInlet {
            rt,
            acceptor,
            stream: None,
            active: None,
            looks: 0,
            closed: 0,
            once,
            served: false,
            counts: InletCounts::new(Vec::new(alloc), 0, false),
            next: Vec::new(alloc),
            health,
            rest,
        })
    }

    /// What was counted so far.
    pub fn counts(&self) -> &InletCounts
        ensures { inlet_state result.now ≡ slot_of self.now }
    {
        &self.counts
    }

    /// Closes the connection, and hands out what was counted.
    pub fn into_counts(mut self) -> InletCounts
        ensures { inlet_state result ≡ slot_of self }
    {
        self.close();
        if !self.is_done() {
            self.acceptor.remove();
        }
        let SlotInlet { counts, .. } = self;
        counts
    }

    // Whether it takes no connection any more.
    fn is_done(&self) -> bool {
        self.once && self.served && self.stream.is_none()
    }

    // Closes the connection, where there is one.
    fn close(&mut self)
        ensures { self.new.counts ≡ self.old.counts }
    {
        if self.stream.is_some() {
            self.stream = None;
            self.acceptor.free();
            if self.is_done() {
                self.acceptor.remove();
            }
        }
    }

    // What a pull brings, before it is counted.
    fn read_more(&mut self, into: &mut [u8]) -> Result<Pull, InletFault>
        requires { 0 < length into.old }
        ensures whole { PullIsWhole (length into.old) result }
        ensures size { length into.new ≡ length into.old }
        ensures counts { self.new.counts ≡ self.old.counts }
    {
        if self.counts.ended {
            return Ok(Pull::End);
        }
        let at = moment(&self.rt);
        if !self.counts.has_room(into.len()) {
            return self.fails("no place beyond 2^63 can be told");
        }
        match self.read_stream(into) {
            ReceivedBytes::Bytes(len) => {
                self.active = Instant::now(&self.rt).ok();
                self.look_at_others();
                self.rest.happened();
                Ok(Pull::Bytes { len, at })
            }
            ReceivedBytes::Nothing => {
                self.look_at_others();
                self.rest.wait();
                Ok(Pull::Idle)
            }
            ReceivedBytes::Over => self.accept(),
        }
    }

    // Closes the connections that no slot is free for. Where one was closed since the last look, and
    // this slot's own connection has given nothing for ten minutes, that one is closed too.
    fn look_at_others(&mut self)
        ensures { self.new.counts ≡ self.old.counts }
    {
        let closed = self.acceptor.close_others(&mut self.looks);
        if closed == self.closed {
            return;
        }
        self.closed = closed;
        if self.is_idle() {
            self.acceptor
                .tell_given_up(&self.counts.peer, b"it has given nothing for 10 minutes");
            self.close();
        }
    }

    fn is_idle(&self) -> bool {
        let Some(active) = self.active else {
            return false;
        };
        match active.elapsed(&self.rt) {
            Ok(since) => since.as_secs() >= IDLE,
            Err(_) => false,
        }
    }

    // What the connection gives. One that is over is closed.
    fn read_stream(&mut self, into: &mut [u8]) -> ReceivedBytes
        ensures given { AreBytesGiven (length into.old) result }
        ensures size { length into.new ≡ length into.old }
        ensures counts { self.new.counts ≡ self.old.counts }
    {
        let Some(stream) = &mut self.stream else {
            return ReceivedBytes::Over;
        };
        match read_some(stream, into) {
            Ok(len) if len > 0 => ReceivedBytes::Bytes(len),
            Err(error) if error.kind() == ErrorKind::WouldBlock => ReceivedBytes::Nothing,
            _ => {
                self.close();
                ReceivedBytes::Over
            }
        }
    }

    // The next connection, where there is one.
    fn accept(&mut self) -> Result<Pull, InletFault>
        ensures no_bytes { IsNoBytes result }
        ensures counts { self.new.counts ≡ self.old.counts }
    {
        if self.once && self.served {
            return Ok(Pull::End);
        }
        match self.acceptor.accept(&self.rest) {
            Ok((stream, peer)) => {
                self.stream = Some(stream);
                self.begin(peer.ip())
            }
            Err(error) => {
                if !is_passing(&error) {
                    self.health.fails("accept", &error);
                }
                self.rest.wait();
                Ok(Pull::Idle)
            }
        }
    }

    // A connection of this peer begins. Where there is no memory for its name it is closed.
    fn begin(&mut self, peer: IpAddr) -> Result<Pull, InletFault>
        ensures no_bytes { IsNoBytes result }
        ensures counts { self.new.counts ≡ self.old.counts }
    {
        let Ok(text) = format!(in self.rt.alloc(); "{peer}") else {
            self.close();
            self.health
                .fails("accept", &io::Error::from(ErrorKind::OutOfMemory));
            self.rest.wait();
            return Ok(Pull::Idle);
        };
        self.next = text.into_bytes();
        self.served = true;
        self.active = Instant::now(&self.rt).ok();
        self.health.works();
        self.rest.happened();
        Ok(Pull::Next)
    }

    fn fails(&mut self, words: &str) -> Result<Pull, InletFault>
        ensures err { IsErr result }
        ensures counts { self.new.counts ≡ self.old.counts }
    {
        self.health.fails("read", &io::Error::other(words));
        Err(InletFault)
    }
}

// Nobody came, or who came went away again.
fn is_passing(error: &io::Error) -> bool {
    match error.kind() {
        ErrorKind::WouldBlock | ErrorKind::Interrupted | ErrorKind::ConnectionAborted => true,
        _ => false,
    }
}

impl Inlet for SlotInlet {
    ghost state = { slot_of };

    fn pull(&mut self, into: &mut [u8]) -> Result<Pull, InletFault> {
        let got = self.read_more(into);
        self.counts.answer(got, &mut self.next)
    }

    fn peer(&self) -> &[u8] {
        &self.counts.peer
    }

    fn hangup(&mut self) {
        if self.stream.is_some() {
            self.acceptor.tell_given_up(
                &self.counts.peer,
                b"no count stands where a message begins",
            );
        }
        self.close();
        self.counts.hung = true;
    }
}
