// A real file that is read.
ghost use Rattle.std.specs.Prelude.{◌≡◌, ◌≤◌, ◌<◌, length, codes, true, IfOk, IsErr};
ghost use Rattle.sg_device.specs.Inlet.{PullIsWhole, PullFills, PullTells, PullMoves, PullLeaves, PullAdds};
ghost use Rattle.sg_file.specs.Counts.{inlet_state, new_inlet};
ghost use Rattle.sg_file.specs.Inlet.{inlet_of, PullEndsBy, EndsAsOpened, IsNoBytes};
ghost use Rattle.sg_file.specs.Seeking.{StartsAt};

use crate::beside::open_beside;
use crate::clock::moment;
use crate::open::{is_same, path_text};
use crate::place::seek_to;
use crate::read::read_some;
use crate::tail::Tail;
use crate::{Health, IdleWait, InletCounts, Reservation};
use sg_device::{Inlet, InletFault, OpenRefusal, Pull};
use std::alloc::Global;
use std::fs::{self, File};
use std::io::{self, ErrorKind};
use std::thread::Threads;

/// A file that is read from a place on. Its peer is `localhost`.
#[derive(Drop)]
pub struct FileInlet {
    rt: HostRuntime,
    path: String,
    file: File,
    reservation: Reservation,
    /// It ends at the file's end.
    pub once: bool,
    counts: InletCounts,
    // The bytes in front of the place.
    tail: Tail,
    // The peer of a second part, of which a file has none.
    nobody: Vec<u8>,
    health: Health,
    rest: IdleWait,
}

// What to do where a file that is followed has no more bytes for good.
const SHORTER: &str =
    "it became shorter than what was read of it: start the program anew, which reads it from its beginning";

const REPLACED: &str =
    "another file has its name, and this one has no more bytes: start the program anew, which reads the other one from its beginning";

const CHANGED: &str =
    "it was truncated and has grown again past what was read of it: remove its position store and start the program anew, which reads it from its beginning";

// What has become of a file of which all bytes that there were have been read.
#[derive(Drop)]
enum FileProgress {
    /// They are all at present.
    All,
    /// There are more by now.
    More,
    /// There will be no more, for this reason.
    Over(&'static str),
}

// A regular file, opened at the place where reading begins, with its name as text.
fn open_at<'a, T: Threads>(
    threads: &T,
    alloc: Global,
    rt: &HostRuntime,
    path: &'a [u8],
    limit: u32,
    from: u64,
) -> io::Result<(&'a str, File, u64)>
    ensures { IfOk result (λ opened. StartsAt from opened.2) }
{
    let text = path_text(path)?;
    let mut file = open_beside(threads, alloc, rt, text)?;
    let place = seek_to(&mut file, limit, from)?;
    Ok((text, file, place))
}

impl FileInlet {
    /// Opens a regular file for reading from a place on: a byte's number from 0. It is 0 where the
    /// file has fewer bytes, where the number is 2^63 or more, or where no record of lines that are
    /// cut at `limit` bytes can have ended there. With `once` the inlet ends at the file's end, else
    /// it is idle there. `threads` is the runtime again, as what opens a file beside the run. A failure is
    /// told on standard error.
    pub fn open<T: Threads>(
        threads: &T,
        alloc: Global,
        rt: HostRuntime,
        path: &[u8],
        once: bool,
        limit: u32,
        from: u64,
        rest: IdleWait,
    ) -> Result<FileInlet, OpenRefusal>
        ensures opened { IfOk result
            (λ inlet. inlet_of inlet ≡ new_inlet (codes "localhost") (inlet_of inlet).from true) }
        ensures place { IfOk result (λ inlet. StartsAt from (inlet_of inlet).from) }
        ensures once { IfOk result (λ inlet. inlet.once ≡ once) }
    {
        let mut health = Health::new(alloc, rt, "source", path)?;
        let (text, file, place) = match open_at(threads, alloc, &rt, path, limit, from) {
            Ok(opened) => opened,
            Err(error) => {
                health.fails("open", &error);
                return Err(OpenRefusal::Failed);
            }
        };
        let peer = b"localhost".to_vec(alloc)?;
        let tail = Tail::read(alloc, &file, place)?;
        let reservation = rest.reserve(&file)?;
        let path = String::from_str(alloc, text)?;
        Ok(FileInlet {
            rt,
            path,
            file,
            reservation,
            once,
            counts: InletCounts::new(peer, place, true),
            tail,
            nobody: Vec::new(alloc),
            health,
            rest,
        })
    }

    /// The open file.
    pub(crate) fn file(&self) -> &File {
        &self.file
    }

    /// What was counted so far.
    pub fn counts(&self) -> &InletCounts
        ensures { inlet_state result.now ≡ inlet_of self.now }
    {
        &self.counts
    }

    /// Closes the file, and hands out what was counted.
    pub fn into_counts(self) -> InletCounts
        ensures { inlet_state result ≡ inlet_of self }
    {
        let FileInlet { counts, .. } = self;
        counts
    }

    // What a pull brings, before it is counted.
    fn read_more(&mut self, into: &mut [u8]) -> Result<Pull, InletFault>
        requires { 0 < length into.old }
        ensures whole { PullIsWhole (length into.old) result }
        ensures size { length into.new ≡ length into.old }
        ensures counts { self.new.counts ≡ self.old.counts }
        ensures ends { PullEndsBy self.old result }
        ensures once { self.new.once ≡ self.old.once }
    {
        if self.counts.ended || self.counts.hung {
            return Ok(Pull::End);
        }
        let at = moment(&self.rt);
        if !self.counts.has_room(into.len()) {
            return self.fails("read", "no place beyond 2^63 can be told");
        }
        match read_some(&mut self.file, into) {
            Ok(0) => self.at_end(),
            Ok(len) => {
                if !self.tail.stands(&self.file, self.counts.place) {
                    return self.fails("follow", CHANGED);
                }
                self.tail.add(into.get(..len).unwrap_or(&[]));
                self.health.works();
                self.rest.happened();
                Ok(Pull::Bytes { len, at })
            }
            Err(error) => {
                self.health.fails("read", &error);
                Err(InletFault)
            }
        }
    }

    // There are no more bytes at present.
    fn at_end(&mut self) -> Result<Pull, InletFault>
        ensures counts { self.new.counts ≡ self.old.counts }
        ensures ends { PullEndsBy self.old result }
        ensures once { self.new.once ≡ self.old.once }
        ensures idle { IsNoBytes result }
    {
        if self.once {
            return Ok(Pull::End);
        }
        match self.look() {
            Ok(FileProgress::All) => {
                self.health.works();
                self.rest.wait();
                Ok(Pull::Idle)
            }
            Ok(FileProgress::More) => {
                self.rest.happened();
                Ok(Pull::Idle)
            }
            Ok(FileProgress::Over(words)) => self.fails("follow", words),
            Err(error) => {
                self.health.fails("follow", &error);
                Err(InletFault)
            }
        }
    }

    // What has become of the file. Its name is looked at first: what was written before another file got
    // the name is there when the open one is looked at then.
    fn look(&self) -> io::Result<FileProgress> {
        let replaced = self.is_replaced()?;
        let length = self.file.metadata()?.len();
        if length > self.counts.place {
            return Ok(FileProgress::More);
        }
        if length < self.counts.place {
            return Ok(FileProgress::Over(SHORTER));
        }
        if !self.tail.stands(&self.file, self.counts.place) {
            return Ok(FileProgress::Over(CHANGED));
        }
        if replaced {
            return Ok(FileProgress::Over(REPLACED));
        }
        Ok(FileProgress::All)
    }

    // Whether another file has the name.
    fn is_replaced(&self) -> io::Result<bool> {
        match fs::metadata(&self.rt, self.path.as_str()) {
            Ok(named) => Ok(!is_same(&self.file.metadata()?, &named)),
            Err(error) if error.kind() == ErrorKind::NotFound => Ok(false),
            Err(error) => Err(error),
        }
    }

    fn fails(&mut self, what: &str, words: &str) -> Result<Pull, InletFault>
        ensures counts { self.new.counts ≡ self.old.counts }
        ensures once { self.new.once ≡ self.old.once }
        ensures err { IsErr result }
    {
        self.health.fails(what, &io::Error::other(words));
        Err(InletFault)
    }
}

impl Inlet for FileInlet {
    ghost state = { inlet_of };

    fn pull(&mut self, into: &mut [u8]) -> Result<Pull, InletFault>
        requires { 0 < length into.old }
        ensures fills { PullFills into.old into.new result }
        ensures told { PullTells (inlet_of self.old) (inlet_of self.new) into.new result }
        ensures place { PullMoves (inlet_of self.old) (inlet_of self.new) result }
        ensures left { PullLeaves (inlet_of self.old) (inlet_of self.new) into.new result }
        ensures adds { PullAdds (inlet_of self.old) (inlet_of self.new) result }
        ensures ends { EndsAsOpened self.old self.new result }
    {
        let got = self.read_more(into);
        self.counts.answer(got, &mut self.nobody)
    }

    fn peer(&self) -> &[u8] {
        &self.counts.peer
    }

    fn hangup(&mut self) {
        self.counts.hung = true;
    }
}
