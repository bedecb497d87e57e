// A folder for the files of one step.
use sg_device::{Frames, InletFault, Outlet, Pull, SendRefusal};
use sg_file::IdleWait;
use std::alloc::{AllocError, Global};
use std::net::TcpListener;
use std::os::unix::fs::{MetadataExt, symlink};
use std::os::unix::net::UnixListener;
use std::random::RandomSource;
use std::test::Fail;
use std::{env, fs};

/// A folder in the temporary one that nobody else has.
#[derive(Drop)]
pub struct Folder {
    pub rt: HostRuntime,
    pub alloc: Global,
    path: String,
}

fn random_number(rt: HostRuntime) -> Result<u64, Fail> {
    let mut bytes = [0u8; 8];
    rt.fill_bytes(&mut bytes)?;
    Ok(u64::from_le_bytes(bytes))
}

// The path of the folder of this number.
fn path_of(rt: HostRuntime, number: u64) -> Result<String, Fail> {
    let temporary = env::temp_dir(&rt)?;
    let above = temporary.as_path().to_str().ok_or("no text")?;
    Ok(format!(in rt.alloc(); "{above}/test_host_{number:016x}")?)
}

impl Folder {
    pub(crate) fn new(rt: HostRuntime) -> Result<Folder, Fail> {
        let path = path_of(rt, random_number(rt)?)?;
        fs::create_dir(&rt, path.as_str())?;
        Ok(Folder {
            rt,
            alloc: rt.alloc(),
            path,
        })
    }

    /// The path of a file in it.
    pub(crate) fn at(&self, name: &str) -> Result<String, Fail> {
        let folder = &self.path;
        Ok(format!(in self.alloc; "{folder}/{name}")?)
    }

    /// The path of a file in it, which has these bytes.
    pub(crate) fn file(&self, name: &str, bytes: &[u8]) -> Result<String, Fail> {
        let path = self.at(name)?;
        fs::write(&self.rt, path.as_str(), bytes)?;
        Ok(path)
    }

    /// The bytes of a file in it.
    pub(crate) fn bytes(&self, name: &str) -> Result<Vec<u8>, Fail> {
        let path = self.at(name)?;
        Ok(fs::read(&self.rt, path.as_str())?)
    }

    /// The text of a file in it.
    pub(crate) fn text(&self, name: &str) -> Result<String, Fail> {
        let bytes = self.bytes(name)?;
        Ok(String::from_str(self.alloc, str::from_utf8(&bytes)?)?)
    }

    /// Whether a name is in it. One that is a link to nothing isn't.
    pub(crate) fn has(&self, name: &str) -> Result<bool, Fail> {
        let path = self.at(name)?;
        Ok(fs::exists(&self.rt, path.as_str())?)
    }

    /// The path of a link in it to another name of it.
    pub(crate) fn link(&self, name: &str, target: &str) -> Result<String, Fail> {
        let path = self.at(name)?;
        let target = self.at(target)?;
        symlink(&self.rt, target.as_str(), path.as_str())?;
        Ok(path)
    }

    /// The path of a socket in it.
    pub(crate) fn socket(&self) -> Result<String, Fail> {
        let path = self.at("s")?;
        UnixListener::bind(&self.rt, path.as_str())?;
        Ok(path)
    }

    /// An answer that is one word.
    pub(crate) fn word(&self, word: &str) -> Result<String, Fail> {
        Ok(String::from_str(self.alloc, word)?)
    }

    /// ` mode ` and the permission bits of a file in it.
    pub(crate) fn mode(&self, name: &str) -> Result<String, Fail> {
        let path = self.at(name)?;
        let mode = fs::metadata(&self.rt, path.as_str())?.mode() & 0o777;
        Ok(format!(in self.alloc; " mode {mode:o}")?)
    }

    /// The number of names in it.
    pub(crate) fn names(&self) -> Result<usize, Fail> {
        let mut count = 0usize;
        for entry in fs::read_dir(&self.rt, self.path.as_str())? {
            let _entry = entry?;
            count = count.saturating_add(1);
        }
        Ok(count)
    }

    /// Another wait of the same machine.
    pub(crate) fn rest(&self) -> Result<IdleWait, Fail> {
        Ok(IdleWait::new(self.alloc, self.rt)?)
    }

    /// Takes it away with all that is in it.
    pub(crate) fn remove(self) -> Result<(), Fail> {
        fs::remove_dir_all(&self.rt, self.path.as_str())?;
        Ok(())
    }
}

/// Sends frames, of which there must be one.
pub(crate) fn send<O: Outlet>(outlet: &mut O, frames: &Frames) -> Result<(), SendRefusal> {
    if frames.is_empty() {
        return Err(SendRefusal::Fault);
    }
    outlet.send(frames)
}

/// Frames of these texts.
pub(crate) fn frames(alloc: Global, list: &[&str]) -> Result<Frames, AllocError> {
    let mut frames = Frames::new(alloc);
    for frame in list {
        frames.push(frame.as_bytes())?;
    }
    Ok(frames)
}

/// Sends frames of these texts, and says how many were taken until then.
pub(crate) fn sent<O: Outlet>(alloc: Global, outlet: &mut O, list: &[&str]) -> Result<u64, Fail> {
    send(outlet, &frames(alloc, list)?)?;
    Ok(outlet.taken())
}

/// A listener on a port that was free, and the port.
pub(crate) fn listen(rt: HostRuntime) -> Result<(TcpListener, u16), Fail> {
    let listener = TcpListener::bind(&rt, ("127.0.0.1", 0))?;
    let port = listener.local_addr()?.port();
    Ok((listener, port))
}

/// A port on which nobody listens.
pub(crate) fn free_port(rt: HostRuntime) -> Result<u16, Fail> {
    let (_listener, port) = listen(rt)?;
    Ok(port)
}

/// Whether there is something, as a word.
pub(crate) fn presence(there: bool) -> &'static str {
    if there { "there" } else { "absent" }
}

/// What a pull brought: its bytes, `next` for a part, `-` for a pause, `.` for the end, or `fault`.
pub(crate) fn brought(got: Result<Pull, InletFault>, buffer: &[u8]) -> Result<&str, Fail> {
    match got {
        Ok(Pull::Bytes { len, .. }) => {
            let bytes = buffer.get(..len).ok_or("too many bytes")?;
            Ok(str::from_utf8(bytes)?)
        }
        Ok(Pull::Next) => Ok("next"),
        Ok(Pull::Idle) => Ok("-"),
        Ok(Pull::End) => Ok("."),
        Err(_) => Ok("fault"),
    }
}
