// Sending texts to their files, which are opened and closed on the way.
ghost use Rattle.std.specs.Prelude.{◌≡◌, ◌≢◌, ◌<◌, ◌+◌, [], ◌∷◌, ◌++◌, List, ℕ, length, OnOk, IfOk};
ghost use Rattle.std.specs.List.{Contains};
ghost use Rattle.sg_device.specs.Paths.{PathsState};
ghost use Rattle.sg_by_path.specs.Each.{SendsEach};
ghost use Rattle.sg_dynfile.specs.Texts.{parted, AreWhole};
ghost use Rattle.sg_dynfile.specs.Tracks.{Tracks, StandsAt, OnlyOpens, MakesOpen, IsClosed};
ghost use Rattle.sg_dynfile.specs.Sending.{IsUnderWay, AreReady, AreNone, Follows, Finds, SendsFrames};

use crate::open_paths::place_of;
use crate::parting::parts_of;
use crate::{OpenPaths, Waiting};
use sg_by_path::SendsByPath;
use sg_device::{Frames, SendRefusal};

// Closes the file at this place.
fn close_at<P: SendsByPath>(opener: &mut P, open_paths: &mut OpenPaths, place: usize)
    requires tracks { Tracks (P.state opener.old) open_paths.old }
    requires inside { place < length open_paths.old.names.items }
    ensures tracks { Tracks (P.state opener.new) open_paths.new }
    ensures fewer { length open_paths.new.names.items + 1 ≡ length open_paths.old.names.items }
    ensures held { open_paths.new.held ≡ open_paths.old.held }
    ensures same { OnlyOpens (P.state opener.old) (P.state opener.new) }
    ensures none { (path : List ℕ) → Contains (P.state opener.new).opened path
        → Contains (P.state opener.old).opened path }
{
    let Some(first) = place_of(&open_paths.names, open_paths.names[place].bytes()) else {
        unreachable!();
    };
    opener.close(open_paths.names[first].bytes());
    open_paths.remove(first);
}

/// Closes all files.
pub(crate) fn close_all<P: SendsByPath>(opener: &mut P, open_paths: &mut OpenPaths)
    requires tracks { Tracks (P.state opener.old) open_paths.old }
    ensures { IsClosed (P.state opener.old) (P.state opener.new) }
{
    while open_paths.names.len() > 0 {
        close_at(opener, open_paths, 0);
    }
}

/// Closes the file whose last use lies farthest back, where it took nothing for long.
pub(crate) fn close_unused<P: SendsByPath>(opener: &mut P, open_paths: &mut OpenPaths)
    requires tracks { Tracks (P.state opener.old) open_paths.old }
    ensures tracks { Tracks (P.state opener.new) open_paths.new }
    ensures same { OnlyOpens (P.state opener.old) (P.state opener.new) }
{
    if open_paths.names.is_empty() {
        return;
    }
    let place = open_paths.oldest();
    if opener.is_unused(open_paths.names[place].bytes()) {
        close_at(opener, open_paths, place);
    }
}

/// The same behind a send that was done: behind a refusal the file that was used last stays the one that
/// is to be opened anew.
pub(crate) fn close_after<P: SendsByPath>(opener: &mut P, open_paths: &mut OpenPaths, done: bool)
    requires tracks { Tracks (P.state opener.old) open_paths.old }
    ensures tracks { Tracks (P.state opener.new) open_paths.new }
    ensures same { OnlyOpens (P.state opener.old) (P.state opener.new) }
{
    if done {
        close_unused(opener, open_paths);
    }
}

// Makes room for one more file: the one whose last use lies farthest back is closed.
fn make_room<P: SendsByPath>(opener: &mut P, open_paths: &mut OpenPaths)
    requires tracks { Tracks (P.state opener.old) open_paths.old }
    ensures tracks { Tracks (P.state opener.new) open_paths.new }
    ensures room { length open_paths.new.names.items < open_paths.new.held }
    ensures same { OnlyOpens (P.state opener.old) (P.state opener.new) }
    ensures none { (path : List ℕ) → Contains (P.state opener.new).opened path
        → Contains (P.state opener.old).opened path }
{
    if open_paths.names.len() as u64 >= open_paths.held as u64 {
        let place = open_paths.oldest();
        close_at(opener, open_paths, place);
    }
}

// Opens the file of a path that isn't open, and tells the place of the path.
fn open_new<P: SendsByPath>(
    opener: &mut P,
    open_paths: &mut OpenPaths,
    path: &[u8],
) -> Result<usize, SendRefusal>
    requires tracks { Tracks (P.state opener.old) open_paths.old }
    requires other { Contains (P.state opener.old).opened path.now → ⊥ }
    ensures tracks { Tracks (P.state opener.new) open_paths.new }
    ensures opened { MakesOpen (P.state opener.old) (P.state opener.new) path.now result }
{
    make_room(opener, open_paths);
    if open_paths.push(path).is_err() {
        return Err(SendRefusal::NoMemory);
    }
    let last = open_paths.names.len() - 1;
    match opener.open(path) {
        Ok(()) => Ok(last),
        Err(refusal) => {
            open_paths.remove(last);
            Err(refusal)
        }
    }
}

// Sends the texts that wait.
fn send_waiting<P: SendsByPath>(
    opener: &mut P,
    open_paths: &mut OpenPaths,
    waiting: &Waiting,
) -> Result<(), SendRefusal>
    requires tracks { Tracks (P.state opener.old) open_paths.old }
    requires ready { AreReady (P.state opener.old) waiting.now.places.items waiting.now.texts }
    requires some { waiting.now.texts ≢ [] }
    ensures tracks { Tracks (P.state opener.new) open_paths.new }
    ensures sends { SendsEach waiting.now.places.items waiting.now.texts (P.state opener.old)
        (P.state opener.new) result }
{
    let before = opener.taken();
    match opener.send_each(&waiting.places, &waiting.texts) {
        Ok(()) => Ok(()),
        Err(refusal) => {
            let number = opener.taken().saturating_sub(before);
            open_paths.use_of(&waiting.places, number);
            Err(refusal)
        }
    }
}

// Sends the texts that wait, where there are any, so that none waits.
fn send_before<P: SendsByPath>(
    opener: &mut P,
    open_paths: &mut OpenPaths,
    waiting: &mut Waiting,
) -> Result<(), SendRefusal>
    requires tracks { Tracks (P.state opener.old) open_paths.old }
    requires ready { AreReady (P.state opener.old) waiting.old.places.items waiting.old.texts }
    ensures tracks { Tracks (P.state opener.new) open_paths.new }
    ensures opened { (P.state opener.new).opened ≡ (P.state opener.old).opened }
    ensures none { OnOk result (AreNone waiting.new.places.items waiting.new.texts) }
    ensures follows { (first : PathsState) (frames : List (List ℕ))
        → IsUnderWay first (P.state opener.old) frames waiting.old.places.items waiting.old.texts
        → Follows first (P.state opener.new) frames waiting.new.places.items waiting.new.texts
        result }
{
    if waiting.texts.is_empty() {
        return Ok(());
    }
    match send_waiting(opener, open_paths, waiting) {
        Ok(()) => {
            waiting.clear();
            Ok(())
        }
        Err(refusal) => Err(refusal),
    }
}

// The place of a path, whose file is opened where it isn't open. Before that the texts that wait are
// sent: a file that can't be opened is refused behind them.
fn place_for<P: SendsByPath>(
    opener: &mut P,
    open_paths: &mut OpenPaths,
    waiting: &mut Waiting,
    path: &[u8],
) -> Result<usize, SendRefusal>
    requires tracks { Tracks (P.state opener.old) open_paths.old }
    requires ready { AreReady (P.state opener.old) waiting.old.places.items waiting.old.texts }
    ensures tracks { Tracks (P.state opener.new) open_paths.new }
    ensures ready { OnOk result
        (AreReady (P.state opener.new) waiting.new.places.items waiting.new.texts) }
    ensures finds { (first : PathsState) (frames : List (List ℕ)) (frame : List ℕ)
        → IsUnderWay first (P.state opener.old) frames waiting.old.places.items waiting.old.texts
        → Finds first (P.state opener.new) frames frame path.now waiting.new.places.items
        waiting.new.texts result }
    ensures stands { IfOk result (StandsAt path.now (P.state opener.new).opened) }
{
    if let Some(place) = open_paths.place_used(path) {
        return Ok(place);
    }
    match send_before(opener, open_paths, waiting) {
        Ok(()) => open_new(opener, open_paths, path),
        Err(refusal) => Err(refusal),
    }
}

// Puts the text of a frame behind those that wait, for the file of its path.
fn add_text<P: SendsByPath>(
    opener: &mut P,
    open_paths: &mut OpenPaths,
    waiting: &mut Waiting,
    path: &[u8],
    text: &[u8],
) -> Result<(), SendRefusal>
    requires tracks { Tracks (P.state opener.old) open_paths.old }
    requires ready { AreReady (P.state opener.old) waiting.old.places.items waiting.old.texts }
    ensures tracks { Tracks (P.state opener.new) open_paths.new }
    ensures ready { OnOk result
        (AreReady (P.state opener.new) waiting.new.places.items waiting.new.texts) }
    ensures follows { (first : PathsState) (frames : List (List ℕ)) (frame : List ℕ)
        → IsUnderWay first (P.state opener.old) frames waiting.old.places.items waiting.old.texts
        → parted frame ≡ record { path = path.now; text = text.now } → AreWhole (frame ∷ [])
        → Follows first (P.state opener.new) (frames ++ frame ∷ []) waiting.new.places.items
        waiting.new.texts result }
    ensures some { OnOk result (waiting.new.texts ≢ []) }
{
    match place_for(opener, open_paths, waiting, path) {
        Ok(place) => waiting.push(place, text),
        Err(refusal) => Err(refusal),
    }
}

/// Sends the texts of the frames in order up to the first that is refused, those together whose files
/// are open.
pub(crate) fn send_all<P: SendsByPath>(
    opener: &mut P,
    open_paths: &mut OpenPaths,
    waiting: &mut Waiting,
    frames: &Frames,
) -> Result<(), SendRefusal>
    requires tracks { Tracks (P.state opener.old) open_paths.old }
    requires some { frames.now ≢ [] }
    ensures tracks { Tracks (P.state opener.new) open_paths.new }
    ensures sends { SendsFrames (P.state opener.old) (P.state opener.new) frames.now result }
{
    waiting.clear();
    let mut rest = frames.bytes();
    for size in frames.sizes() {
        let (frame, behind) = rest.split_at(*size);
        let (path, text) = parts_of(frame);
        match add_text(opener, open_paths, waiting, path, text) {
            Ok(()) => {}
            Err(refusal) => return Err(refusal),
        }
        rest = behind;
    }
    send_waiting(opener, open_paths, waiting)
}
