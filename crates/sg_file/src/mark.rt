// Which file it was whose position is stored.
use crate::fresh::replace;
use crate::identity::{FIRST, Identity};
use crate::lines::DeviceNotices;
use crate::open::open_to_read;
use crate::read::read_some;
use crate::{FileInlet, Health};
use sg_device::NoMemory;
use std::alloc::Global;
use std::io::{self, ErrorKind};

// A longer file isn't one that was written here. The system reads a file of so few bytes at once.
const LONGEST: usize = 256;

/// The file that tells which one it was whose position is stored, beside the store of that: `id-` and the path
/// of the source, as `pos-` and the path is the store.
#[derive(Drop)]
pub struct Mark {
    rt: HostRuntime,
    name: String,
    // What it says. None where it isn't there, or can't be read.
    known: Option<Identity>,
    // It says so of the file that is open.
    settled: bool,
    health: Health,
    lines: DeviceNotices,
}

impl Mark {
    /// That of the source of this path. Where it is there and can't be read, that is told.
    pub fn open(alloc: Global, rt: HostRuntime, path: &[u8]) -> Result<Mark, NoMemory> {
        let name = name_of(alloc, path)?;
        let mut health = Health::new(alloc, rt, "store", name.as_bytes())?;
        let known = match read_mark(&rt, name.as_str()) {
            Ok(known) => Some(known),
            Err(error) if error.kind() == ErrorKind::NotFound => None,
            Err(error) => {
                health.fails("read", &error);
                None
            }
        };
        Ok(Mark {
            rt,
            name,
            known,
            settled: false,
            health,
            lines: DeviceNotices::new(alloc, rt, "source", path)?,
        })
    }

    /// Whether the source is another file than it was then, which is told. Where that can't be seen it
    /// counts as the same one.
    pub fn is_another(&mut self, source: &FileInlet) -> bool {
        let Some(known) = self.known else {
            return false;
        };
        if known.is_of(source.file()).unwrap_or(true) {
            return false;
        }
        self.lines.tell(b"it is another file than at the last run: it is read from its beginning");
        true
    }

    /// Writes which file the source is, before its first pull, and with more of its first bytes once twice as many
    /// were read. Where that can't be done it is told, and the mark is taken away.
    pub fn keep(&mut self, source: &FileInlet) {
        if self.settled && !self.is_due(source.counts().place) {
            return;
        }
        if let Err(error) = self.try_keep(source) {
            self.health.fails("write", &error);
            self.known = None;
            let _left = std::fs::remove_file(&self.rt, self.name.as_str());
        }
        self.settled = true;
    }

    // Whether so many bytes read are worth a new one.
    fn is_due(&self, place: u64) -> bool {
        match self.known {
            Some(known) => {
                known.count < FIRST as u64 && place > 0 && place >= known.count.saturating_mul(2)
            }
            None => false,
        }
    }

    fn try_keep(&mut self, source: &FileInlet) -> io::Result<()> {
        let found = Identity::of(source.file(), FIRST as u64)?;
        if self.known == Some(found) {
            return Ok(());
        }
        let alloc = self.rt.alloc();
        let text = found.text(alloc)?;
        replace(alloc, &self.rt, self.name.as_str(), text.as_bytes())?;
        self.known = Some(found);
        self.health.works();
        Ok(())
    }
}

// The name of the mark of a source: in its path each byte but a letter, a digit, `-`, `.` and `,` is `_` and two
// hexadecimal digits.
fn name_of(alloc: Global, path: &[u8]) -> Result<String, NoMemory> {
    let mut name = String::from_str(alloc, "id-")?;
    for byte in path {
        let byte = *byte;
        if byte.is_ascii_alphanumeric() || byte == b'-' || byte == b'.' || byte == b',' {
            name.push(char::from(byte))?;
        } else {
            let escaped = format!(in alloc; "_{byte:02x}")?;
            name.push_str(escaped.as_str())?;
        }
    }
    Ok(name)
}

fn read_mark(rt: &HostRuntime, name: &str) -> io::Result<Identity> {
    let mut bytes = [0u8; LONGEST];
    let mut file = open_to_read(rt, name)?;
    let count = read_some(&mut file, &mut bytes)?;
    let line = str::from_utf8(bytes.get(..count).unwrap_or(&[])).unwrap_or("");
    Identity::read(line).ok_or(io::Error::other("it is no mark of a file"))
}
