// A TCP connection that takes frames.
ghost use Rattle.std.specs.Prelude.{◌≡◌, ◌≤◌, length, IfOk};
ghost use Rattle.sg_file.specs.Counts.{outlet_state, new_outlet};
ghost use Rattle.sg_net.specs.Outlet.{tcp_of};

use crate::begun::BegunFrame;
use crate::dial::{Dial, Dialed};
use crate::wire::{SocketWrite, after, look, write_now};
use mio::net::TcpStream;
use sg_device::{Frames, OpenRefusal, Outlet, OutletFault, Reopened, SendRefusal};
use sg_file::{Health, IdleWait, OutletCounts, Retry, path_text};
use std::alloc::Global;
use std::io::{self, ErrorKind};
use std::net::Shutdown;
use std::thread::Threads;
use std::time::{Duration, Instant};

/// A connection to a host, which is made by the sends. No call waits for the host, nor for the look-up
/// of its name. A frame that was taken is with the kernel; what becomes of it there isn't known.
pub struct TcpOutlet<T: Threads + Copy> {
    rt: HostRuntime,
    dial: Dial<T>,
    stream: Option<TcpStream>,
    begun: BegunFrame,
    // How long a byte may wait to be taken.
    patience: Duration,
    // Since when no byte is taken.
    stuck: Option<Instant>,
    counts: OutletCounts,
    health: Health,
    rest: IdleWait,
}

impl<T: Threads + Copy> Drop for TcpOutlet<T> {
    fn drop(self) {
        let TcpOutlet {
            rt: _rt,
            dial: _dial,
            stream: _stream,
            begun: _begun,
            patience: _patience,
            stuck: _stuck,
            counts: _counts,
            health: _health,
            rest: _rest,
        } = self;
    }
}

// What a send came to: so many frames were taken whole, why no more of them, and whether anything was
// done.
#[derive(Drop)]
struct Put {
    whole: usize,
    refusal: SendRefusal,
    did: bool,
}

impl<T: Threads + Copy> TcpOutlet<T> {
    /// An outlet to this host and port, which isn't connected yet. `threads` is the runtime again, as
    /// what starts a look-up of the name. `reopen` is the time in seconds from one try to the next; it
    /// is 0 for a run that ends by itself, in which a byte may wait for 5 seconds in place of 60. A name
    /// that isn't UTF-8 is a failure, told on standard error.
    pub fn open(
        threads: T,
        alloc: Global,
        rt: HostRuntime,
        host: &[u8],
        port: u16,
        reopen: u32,
        rest: IdleWait,
    ) -> Result<TcpOutlet<T>, OpenRefusal>
        ensures { IfOk result (λ outlet. tcp_of outlet ≡ new_outlet) }
    {
        let mut name = host.to_vec(alloc)?;
        let behind = format!(in alloc; ":{port}")?;
        name.extend_from_slice(behind.as_bytes())?;
        let mut health = Health::new(alloc, rt, "destination", &name)?;
        let host = match path_text(host) {
            Ok(host) => String::from_str(alloc, host)?,
            Err(error) => {
                health.fails("open", &error);
                return Err(OpenRefusal::Failed);
            }
        };
        let retry = Retry::new(rt, reopen);
        Ok(TcpOutlet {
            rt,
            dial: Dial::new(threads, alloc, rt, host, port, retry, rest.share()?),
            stream: None,
            begun: BegunFrame::new(alloc),
            patience: Duration::from_secs(if reopen == 0 { 5 } else { 60 }),
            stuck: None,
            counts: OutletCounts::new(),
            health,
            rest,
        })
    }

    /// What was counted so far.
    pub fn counts(&self) -> OutletCounts
        ensures { outlet_state result ≡ tcp_of self.now }
    {
        self.counts
    }

    /// Tells the peer that nothing follows, and hands out what was counted. What the peer sent is read
    /// first: the system takes a close for a reset where that waits, and the peer may lose the last
    /// frames.
    pub fn into_counts(mut self) -> OutletCounts
        ensures { outlet_state result ≡ tcp_of self }
    {
        self.finish();
        self.counts
    }

    // Ends the connection, where there is one.
    fn finish(&mut self)
        ensures { self.new.counts ≡ self.old.counts }
    {
        if let Some(stream) = &mut self.stream {
            let _closed = look(stream);
            let _told = stream.shutdown(Shutdown::Write);
        }
        self.close();
    }

    // Gives the connection up, with the frame of which a part was written.
    fn close(&mut self)
        ensures { self.new.counts ≡ self.old.counts }
    {
        self.stream = None;
        self.dial.stop();
        self.begun.forget();
        self.stuck = None;
    }

    // Sends the frames as far as the system takes them now.
    fn put(&mut self, frames: &Frames) -> Put
        ensures { self.new.counts ≡ self.old.counts }
    {
        if self.stream.is_some() {
            return self.put_on(frames);
        }
        match self.dial.step() {
            Dialed::Ready(stream) => {
                self.stream = Some(stream);
                self.put_on(frames)
            }
            Dialed::Later => stopped(0, SendRefusal::Later, false),
            Dialed::Failed(error) => {
                self.health.fails("connect", &error);
                stopped(0, SendRefusal::Fault, true)
            }
        }
    }

    // The same over a connection that is there. Where that ends in an error none of the frames counts:
    // they may lie with a system that has no connection to send them over.
    fn put_on(&mut self, frames: &Frames) -> Put
        ensures { self.new.counts ≡ self.old.counts }
    {
        if !self.begun.is_first_of(frames) {
            self.finish();
            return stopped(0, SendRefusal::Later, true);
        }
        let from = self.begun.written();
        let written = self.write(frames.bytes().get(from..).unwrap_or(&[]));
        if let Err(error) = written.ended {
            self.close();
            self.health.fails("send", &error);
            return stopped(0, SendRefusal::Fault, true);
        }
        let count = from.saturating_add(written.count);
        let whole = frames.whole_within(count);
        if self.begun.keep(frames, whole, count).is_err() {
            self.close();
            return stopped(0, SendRefusal::NoMemory, true);
        }
        if whole > 0 {
            self.health.works();
        }
        stopped(whole, SendRefusal::Later, written.count > 0)
    }

    // Writes what the system takes now. It fails where the peer has closed the connection, or has
    // taken no byte for too long.
    fn write(&mut self, bytes: &[u8]) -> SocketWrite
        ensures counts { self.new.counts ≡ self.old.counts }
        ensures bound { result.count ≤ length bytes.now }
    {
        let Some(stream) = &mut self.stream else {
            return after(0, Err(io::Error::from(ErrorKind::NotConnected)));
        };
        if let Err(error) = look(stream) {
            return after(0, Err(error));
        }
        let done = write_now(stream, bytes);
        if done.count > 0 || bytes.is_empty() || done.ended.is_err() {
            self.stuck = None;
            return done;
        }
        after(0, self.wait())
    }

    // No byte was taken.
    fn wait(&mut self) -> io::Result<()>
        ensures { self.new.counts ≡ self.old.counts }
    {
        let now = Instant::now(&self.rt)?;
        match self.stuck {
            None => {
                self.stuck = Some(now);
                Ok(())
            }
            Some(since) if now.duration_since(since) < self.patience => Ok(()),
            Some(_) => Err(io::Error::from(ErrorKind::TimedOut)),
        }
    }

    // Where nothing was done the outlet is idle.
    fn rest_after(&mut self, did: bool)
        ensures { self.new.counts ≡ self.old.counts }
    {
        if did {
            self.rest.happened();
        } else {
            self.rest.wait();
        }
    }
}

fn stopped(whole: usize, refusal: SendRefusal, did: bool) -> Put {
    Put {
        whole,
        refusal,
        did,
    }
}

impl<T: Threads + Copy> Outlet for TcpOutlet<T> {
    ghost state = { tcp_of };

    fn send(&mut self, frames: &Frames) -> Result<(), SendRefusal> {
        let all = frames.len();
        let put = if self.counts.has_room(all) {
            self.put(frames)
        } else {
            stopped(0, SendRefusal::Fault, true)
        };
        self.rest_after(put.did);
        self.counts.sent(put.whole, all, put.refusal)
    }

    fn taken(&self) -> u64 {
        self.counts.taken
    }

    /// Gives the connection up, and makes a new one with the sends to come, where it isn't too early for
    /// another try.
    fn reopen(&mut self) -> Result<Reopened, OutletFault> {
        if self.dial.retry.is_early() {
            self.rest.wait();
            return self.counts.reopened(Ok(Reopened::Later));
        }
        self.close();
        self.counts.reopened(Ok(Reopened::Ready))
    }
}
