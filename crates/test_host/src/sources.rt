// Steps over files that are read.
use crate::folder::{Folder, brought};
use sg_device::Inlet;
use sg_file::{FileInlet, moment};
use std::fs;
use std::io::{self, ErrorKind, Write};
use std::test::Fail;
use std::thread::Threads;
use std::time::{Clock, Duration};

// The limit of a line in these steps.
const LIMIT: u32 = 4;

/// What a step over a source comes to.
pub(crate) fn take<T: Threads>(threads: &T, folder: &Folder, what: &str) -> Result<String, Fail> {
    match what {
        "places" => places(threads, folder),
        "moments" => moments(folder),
        "folder" => folder.word(opened(threads, folder, b"/")?),
        "socket" => folder.word(opened(threads, folder, folder.socket()?.as_bytes())?),
        "device" => folder.word(opened(threads, folder, b"/dev/null")?),
        "name" => folder.word(opened(threads, folder, b"/tmp/\xff")?),
        "missing" => folder.word(opened(threads, folder, folder.at("none")?.as_bytes())?),
        _ => pulls(threads, folder, what),
    }
}

// A clock that stands still, or tells nothing.
#[derive(Clone, Copy, Drop)]
struct Still {
    since: Option<Duration>,
}

impl Clock for Still {
    fn monotonic(&self) -> io::Result<Duration> {
        self.since_1970()
    }

    fn since_1970(&self) -> io::Result<Duration> {
        match self.since {
            Some(since) => Ok(since),
            None => Err(io::Error::from(ErrorKind::InvalidData)),
        }
    }
}

// The moments by a clock that tells nothing, as one before 1970, by one at a second and a half, and by one that
// stands behind the last moment.
fn moments(folder: &Folder) -> Result<String, Fail> {
    let none = moment(&Still { since: None });
    let some = moment(&Still {
        since: Some(Duration::from_millis(1500)),
    });
    let late = moment(&Still {
        since: Some(Duration::from_secs(1 << 62)),
    });
    Ok(format!(in folder.alloc; "{none} {some} {late}")?)
}

fn opened<T: Threads>(threads: &T, folder: &Folder, path: &[u8]) -> Result<&'static str, Fail> {
    let rest = folder.rest()?;
    Ok(
        match FileInlet::open(threads, folder.alloc, folder.rt, path, true, LIMIT, 0, rest) {
            Ok(_) => "opened",
            Err(_) => "refused",
        },
    )
}

// The file of a step, from this place on.
fn inlet<T: Threads>(
    threads: &T,
    folder: &Folder,
    once: bool,
    from: u64,
) -> Result<FileInlet, Fail> {
    let path = folder.at("in")?;
    let rest = folder.rest()?;
    let path = path.as_bytes();
    Ok(FileInlet::open(
        threads,
        folder.alloc,
        folder.rt,
        path,
        once,
        LIMIT,
        from,
        rest,
    )?)
}

// The place at which reading begins for the one asked for.
fn place<T: Threads>(threads: &T, folder: &Folder, from: u64) -> Result<String, Fail> {
    let place = inlet(threads, folder, true, from)?.counts().from;
    Ok(format!(in folder.alloc; " {place}")?)
}

// The places at which reading begins, for those asked for: behind a line feed, and behind a piece of
// a line that was cut at the limit.
fn places<T: Threads>(threads: &T, folder: &Folder) -> Result<String, Fail> {
    folder.file("in", b"abc\nefghijk\n")?;
    let mut text = String::new(folder.alloc);
    for from in [0u64, 4, 3, 7, 8, 13, 11, 1 << 63, u64::MAX] {
        text.push_str(place(threads, folder, from)?.as_str())?;
    }
    folder.word(text.as_str().trim())
}

// What pulls bring: bytes, `.` for the end, `-` for a pause, each with a colon behind it.
fn pulls<T: Threads>(threads: &T, folder: &Folder, what: &str) -> Result<String, Fail> {
    folder.file("in", b"abc")?;
    let mut inlet = inlet(threads, folder, what == "once", 0)?;
    all_pulls(folder, &mut inlet, what)
}

fn all_pulls(folder: &Folder, inlet: &mut FileInlet, what: &str) -> Result<String, Fail> {
    let mut text = String::new(folder.alloc);
    first_pulls(folder, inlet, what, &mut text)?;
    pull(inlet, &mut text)?;
    change(folder, what)?;
    last_pulls(inlet, what, &mut text)?;
    Ok(text)
}

// The first pull, and what comes behind it.
fn first_pulls(
    folder: &Folder,
    inlet: &mut FileInlet,
    what: &str,
    text: &mut String,
) -> Result<(), Fail> {
    pull(inlet, text)?;
    match what {
        "once" => {
            append(folder, b"de")?;
            pull(inlet, text)?;
        }
        "hung" => inlet.hangup(),
        "idle" | "grown" | "shorter" | "regrown" | "rewritten" | "replaced" | "unlinked" => {}
        _ => return Err("no such step".into()),
    }
    Ok(())
}

// The pulls of a file that may have changed.
fn last_pulls(inlet: &mut FileInlet, what: &str, text: &mut String) -> Result<(), Fail> {
    pull(inlet, text)?;
    if what == "shorter" {
        pull(inlet, text)?;
    }
    Ok(())
}

fn pull(inlet: &mut FileInlet, text: &mut String) -> Result<(), Fail> {
    let mut buffer = [0u8; 3];
    let got = inlet.pull(&mut buffer);
    text.push_str(brought(got, &buffer)?)?;
    text.push_str(":")?;
    Ok(())
}

fn append(folder: &Folder, bytes: &[u8]) -> Result<(), Fail> {
    let path = folder.at("in")?;
    let mut options = fs::OpenOptions::new();
    options.append(true);
    let mut file = options.open(&folder.rt, path.as_str())?;
    file.write_all(bytes)?;
    Ok(())
}

// What becomes of the file while it is read.
fn change(folder: &Folder, what: &str) -> Result<(), Fail> {
    let path = folder.at("in")?;
    match what {
        "grown" => append(folder, b"de")?,
        "shorter" => fs::write(&folder.rt, path.as_str(), b"x".as_slice())?,
        "regrown" => fs::write(&folder.rt, path.as_str(), b"xyzuv".as_slice())?,
        "rewritten" => fs::write(&folder.rt, path.as_str(), b"xyz".as_slice())?,
        "replaced" => {
            let other = folder.file("new", b"abcdef")?;
            fs::rename(&folder.rt, other.as_str(), path.as_str())?;
        }
        "unlinked" => fs::remove_file(&folder.rt, path.as_str())?,
        _ => {}
    }
    Ok(())
}
