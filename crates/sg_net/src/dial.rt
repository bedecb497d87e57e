// A connection that is being made.
ghost use Rattle.std.specs.Prelude.{◌≡◌};

use crate::look_up::LookUp;
use mio::net::TcpStream;
use sg_file::{IdleWait, Retry};
use std::alloc::Global;
use std::io::{self, ErrorKind};
use std::mem;
use std::net::{IpAddr, SocketAddr};
use std::thread::Threads;
use std::time::{Duration, Instant};

// The seconds for a connection: the look-up of the name, and all its addresses.
const PATIENCE: u64 = 5;

// The most addresses that one step begins with.
const TRIES: usize = 8;

/// What a step came to.
#[derive(Drop)]
pub(crate) enum Dialed {
    Ready(TcpStream),
    /// It goes on.
    Later,
    Failed(io::Error),
}

/// Makes a connection to a host, step by step, with no step that waits.
#[derive(Drop)]
pub(crate) struct Dial<T: Threads + Copy> {
    threads: T,
    rt: HostRuntime,
    alloc: Global,
    host: String,
    port: u16,
    rest: IdleWait,
    // When it is tried anew.
    pub(crate) retry: Retry,
    // Since when it is tried.
    begun: Option<Instant>,
    look_up: Option<LookUp>,
    // Those that weren't tried yet, the last one first.
    addresses: Vec<SocketAddr>,
    // The address that is tried at present.
    tried: Option<Try>,
}

#[derive(Drop)]
struct Try {
    stream: TcpStream,
    begun: Instant,
    // The time that this address has.
    share: Duration,
}

impl<T: Threads + Copy> Dial<T> {
    pub(crate) fn new(
        threads: T,
        alloc: Global,
        rt: HostRuntime,
        host: String,
        port: u16,
        retry: Retry,
        rest: IdleWait,
    ) -> Dial<T> {
        Dial {
            threads,
            rt,
            alloc,
            host,
            port,
            rest,
            retry,
            begun: None,
            look_up: None,
            addresses: Vec::new(alloc),
            tried: None,
        }
    }

    /// Goes on. After `Ready` and `Failed` the next step begins anew.
    pub(crate) fn step(&mut self) -> Dialed {
        match self.go_on() {
            Ok(Some(stream)) => {
                self.stop();
                Dialed::Ready(stream)
            }
            Ok(None) => Dialed::Later,
            Err(error) => {
                self.stop();
                Dialed::Failed(error)
            }
        }
    }

    /// Stops. A look-up that isn't done goes on, for the next time.
    pub(crate) fn stop(&mut self) {
        self.begun = None;
        self.addresses.clear();
        self.tried = None;
    }

    fn go_on(&mut self) -> io::Result<Option<TcpStream>> {
        let now = Instant::now(&self.rt)?;
        let begun = match self.begun {
            Some(begun) => begun,
            None => {
                self.begin()?;
                self.begun = Some(now);
                now
            }
        };
        let left = Duration::from_secs(PATIENCE).saturating_sub(now.duration_since(begun));
        if left.is_zero() {
            return Err(io::Error::from(ErrorKind::TimedOut));
        }
        if !self.is_found()? {
            return Ok(None);
        }
        self.try_addresses(now, left)
    }

    // An address needs no look-up.
    fn begin(&mut self) -> io::Result<()> {
        self.retry.begin();
        if let Ok(ip) = self.host.as_str().parse::<IpAddr>() {
            self.addresses.push(SocketAddr::new(ip, self.port))?;
        } else if self.look_up.is_none() {
            let look_up = LookUp::begin(
                &self.threads,
                self.alloc,
                self.rt,
                self.host.as_str(),
                self.port,
                &self.rest,
            )?;
            self.look_up = Some(look_up);
        }
        Ok(())
    }

    // Whether the addresses are there.
    fn is_found(&mut self) -> io::Result<bool> {
        match mem::take(&mut self.look_up) {
            None => Ok(true),
            Some(look_up) if look_up.is_done() => {
                look_up.put(&mut self.addresses)?;
                Ok(true)
            }
            Some(look_up) => {
                self.look_up = Some(look_up);
                Ok(false)
            }
        }
    }

    // Each address has an equal share of the time that is left when it is tried.
    fn try_addresses(&mut self, now: Instant, left: Duration) -> io::Result<Option<TcpStream>> {
        let mut failed = io::Error::other("the host has no address");
        for _ in 0..TRIES {
            if self.tried.is_none() {
                let Some(address) = self.addresses.pop() else {
                    return Err(failed);
                };
                match self.connect(address, now, left) {
                    Ok(tried) => self.tried = Some(tried),
                    Err(error) => failed = error,
                }
            }
            let Some(tried) = mem::take(&mut self.tried) else {
                continue;
            };
            match state_of(&tried.stream) {
                Ok(true) => {
                    let Try { stream, .. } = tried;
                    return Ok(Some(stream));
                }
                Ok(false) if now.duration_since(tried.begun) < tried.share => {
                    self.tried = Some(tried);
                    return Ok(None);
                }
                Ok(false) => failed = io::Error::from(ErrorKind::TimedOut),
                Err(error) => failed = error,
            }
        }
        self.rest.happened();
        Ok(None)
    }

    // Begins to connect, and lets the wait of all know of it.
    fn connect(&self, address: SocketAddr, now: Instant, left: Duration) -> io::Result<Try> {
        let stream = TcpStream::connect(&self.rt, address)?;
        self.rest.watch(&stream, true);
        Ok(Try {
            stream,
            begun: now,
            share: share_of(left, self.addresses.len()),
        })
    }
}

// The time of an address that so many others stand behind.
fn share_of(left: Duration, behind: usize) -> Duration {
    let all = u32::try_from(behind)
        .unwrap_or(u32::MAX - 1)
        .saturating_add(1);
    left.checked_div(all).unwrap_or(left)
}

// Whether it is connected: not yet, or it failed.
fn state_of(stream: &TcpStream) -> io::Result<bool> {
    if let Some(error) = stream.take_error()? {
        return Err(error);
    }
    match stream.peer_addr() {
        Ok(_) => Ok(true),
        Err(error) if error.kind() == ErrorKind::NotConnected => Ok(false),
        Err(error) => Err(error),
    }
}
