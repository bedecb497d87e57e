// The lines on standard error.
ghost use Rattle.std.specs.Prelude.{◌≡◌};

use crate::clock::moment_text;
use mio::unix::SourceFd;
use mio::{Events, Interest, Poll, Token};
use std::alloc::{AllocError, Global};
use std::io::{self, Write};
use std::os::fd::RawFd;
use std::time::Duration;

// Standard error.
const DESCRIPTOR: RawFd = 2;

// A pipe or a socket that takes anything takes so many bytes at once. What is longer is cut there.
const LONGEST: usize = 4_096;

/// The lines on standard error about a device: the moment, the device, and words. One that a pipe or a
/// socket has no room for is dropped, and the next one tells how many were.
#[derive(Drop)]
pub(crate) struct DeviceNotices {
    rt: HostRuntime,
    /// Its kind and its name, as bytes that can be printed.
    pub(crate) device: Vec<u8>,
    // The lines dropped since one was written.
    dropped: u64,
}

impl DeviceNotices {
    /// About a device of this kind and name.
    pub(crate) fn new(
        alloc: Global,
        rt: HostRuntime,
        kind: &str,
        name: &[u8],
    ) -> Result<DeviceNotices, AllocError> {
        let mut device = kind.as_bytes().to_vec(alloc)?;
        device.push(b' ')?;
        for byte in name {
            let shown = if *byte < 32 || *byte == 127 {
                b'?'
            } else {
                *byte
            };
            device.push(shown)?;
        }
        Ok(DeviceNotices {
            rt,
            device,
            dropped: 0,
        })
    }

    /// Writes a line, by one write where there is memory for it.
    pub(crate) fn tell(&mut self, words: &[u8])
        ensures { self.new.device ≡ self.old.device }
    {
        if !takes_lines(&self.rt) {
            self.dropped = self.dropped.saturating_add(1);
            return;
        }
        if let Ok(line) = self.whole_line(words) {
            write_line(&self.rt, &line);
        } else {
            write_line(&self.rt, words);
        }
        self.dropped = 0;
    }

    fn whole_line(&self, words: &[u8]) -> Result<Vec<u8>, AllocError> {
        let alloc = self.rt.alloc();
        let mut line = moment_text(alloc, &self.rt)?;
        line.push(b' ')?;
        line.extend_from_slice(&self.device)?;
        line.extend_from_slice(b": ")?;
        line.extend_from_slice(words)?;
        if self.dropped > 0 {
            let dropped = self.dropped;
            let before = format!(in alloc; " ({dropped} lines before were dropped)")?;
            line.extend_from_slice(before.as_bytes())?;
        }
        line.truncate(LONGEST - 1);
        line.push(b'\n')?;
        Ok(line)
    }
}

fn write_line(rt: &HostRuntime, line: &[u8]) {
    let line = line.get(..LONGEST).unwrap_or(line);
    let _told = rt.stderr().write_all(line);
}

/// Whether standard error takes a line without waiting. A regular file, and what can't be asked, always
/// does.
pub fn takes_lines(rt: &HostRuntime) -> bool {
    match ask(rt) {
        Ok(takes) => takes,
        Err(_) => true,
    }
}

fn ask(rt: &HostRuntime) -> io::Result<bool> {
    let mut poll = Poll::new(rt)?;
    let mut events = Events::with_capacity(rt.alloc(), 1)?;
    let descriptor = DESCRIPTOR;
    poll.registry()
        .register(&mut SourceFd(&descriptor), Token(0), Interest::WRITABLE)?;
    poll.poll(&mut events, Some(Duration::ZERO))?;
    Ok(!events.is_empty())
}
