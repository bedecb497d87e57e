// Steps over files that are appended to.
use crate::folder::{Folder, frames, presence, send, sent};
use sg_device::{OpenRefusal, Outlet, Reopened};
use sg_file::{Appending, FileOutlet, IdleWait};
use std::fs;
use std::test::Fail;

/// What a step over a destination comes to.
pub(crate) fn take(folder: &Folder, what: &str) -> Result<String, Fail> {
    match what {
        "modes" => modes(folder),
        "appended" => appended(folder),
        "full" => refused(folder, b"/dev/full"),
        "unsynced" => refused(folder, b"/dev/null"),
        "later" => reopened(folder, 100),
        "ready" => reopened(folder, 0),
        "moved" => moved(folder),
        "folder" => folder.word(opened(folder, b"/")),
        "socket" => folder.word(opened(folder, folder.socket()?.as_bytes())),
        "device" => folder.word(opened(folder, b"/dev/null")),
        "dangling" => dangling(folder),
        "name" => folder.word(opened(folder, b"/tmp/\xff")),
        "folders" => folders(folder),
        _ => Err("no such step".into()),
    }
}

fn outlet(folder: &Folder, path: &[u8], mode: u16, reopen: u32) -> Result<FileOutlet, OpenRefusal> {
    let how = Appending {
        fsync: true,
        mode,
        folders: None,
        reopen,
    };
    appending(folder, path, how)
}

fn appending(folder: &Folder, path: &[u8], how: Appending) -> Result<FileOutlet, OpenRefusal> {
    let rest = IdleWait::new(folder.alloc, folder.rt)?;
    FileOutlet::open(folder.alloc, folder.rt, path, how, rest)
}

fn opened(folder: &Folder, path: &[u8]) -> &'static str {
    match outlet(folder, path, 0o600, 0) {
        Ok(_) => "opened",
        Err(_) => "refused",
    }
}

// The file of a step, which is reopened every so many milliseconds at most.
fn out(folder: &Folder, reopen: u32) -> Result<FileOutlet, Fail> {
    let path = folder.at("out")?;
    Ok(outlet(folder, path.as_bytes(), 0o600, reopen)?)
}

// The mode of a file that was opened with this one.
fn mode_of(folder: &Folder, name: &str, mode: u16) -> Result<String, Fail> {
    let path = folder.at(name)?;
    drop(outlet(folder, path.as_bytes(), mode, 0)?);
    Ok(folder.mode(name)?)
}

// A file that is made has the mode asked for, and one that is there keeps its own.
fn modes(folder: &Folder) -> Result<String, Fail> {
    let mut text = String::new(folder.alloc);
    for (name, mode) in [("one", 0o640), ("two", 0o600), ("three", 0o444)] {
        text.push_str(mode_of(folder, name, mode)?.as_str())?;
    }
    folder.word(text.as_str().trim())
}

// What one of two has taken after its frames before the other's, and after its frames behind them.
fn in_turns(
    folder: &Folder,
    one: &mut FileOutlet,
    other: &mut FileOutlet,
) -> Result<(u64, u64), Fail> {
    let first = sent(folder.alloc, one, &["ab", "cd"])?;
    sent(folder.alloc, other, &["abc"])?;
    let second = sent(folder.alloc, one, &["ab"])?;
    Ok((first, second))
}

// Frames go behind what is there, also behind what another one put there.
fn appended(folder: &Folder) -> Result<String, Fail> {
    let mut one = out(folder, 0)?;
    let mut other = out(folder, 0)?;
    let (first, second) = in_turns(folder, &mut one, &mut other)?;
    let held = folder.text("out")?;
    Ok(format!(in folder.alloc; "taken {first} taken {second} {held}")?)
}

// A device takes no frame that is always full, or that can't be synced where that is asked.
fn refused(folder: &Folder, path: &[u8]) -> Result<String, Fail> {
    let mut one = outlet(folder, path, 0o600, 0)?;
    let refused = send(&mut one, &frames(folder.alloc, &["ab", "cd"])?);
    if refused.is_ok() {
        return Err("it took frames".into());
    }
    let taken = one.taken();
    Ok(format!(in folder.alloc; "taken {taken}")?)
}

// Two reopenings at once.
fn reopened(folder: &Folder, every: u32) -> Result<String, Fail> {
    let mut one = out(folder, every)?;
    let mut text = String::new(folder.alloc);
    for _ in 0..2 {
        match one.reopen()? {
            Reopened::Ready => text.push_str("ready ")?,
            Reopened::Later => text.push_str("later ")?,
        }
    }
    folder.word(text.as_str().trim())
}

// Another name for the file, a frame, a reopening and another frame.
fn move_away(folder: &Folder, one: &mut FileOutlet) -> Result<(), Fail> {
    let path = folder.at("out")?;
    let old = folder.at("old")?;
    fs::rename(&folder.rt, path.as_str(), old.as_str())?;
    sent(folder.alloc, one, &["a"])?;
    one.reopen()?;
    sent(folder.alloc, one, &["b"])?;
    Ok(())
}

// After a reopening frames go to the file that has the name then.
fn moved(folder: &Folder) -> Result<String, Fail> {
    let mut one = out(folder, 0)?;
    move_away(folder, &mut one)?;
    let before = folder.text("old")?;
    let after = folder.text("out")?;
    Ok(format!(in folder.alloc; "old {before} new {after}")?)
}

// Makes a file and the folders on the way to it.
fn make(folder: &Folder, path: &[u8]) -> Result<(), Fail> {
    let how = Appending {
        fsync: true,
        mode: 0o600,
        folders: Some(0o775),
        reopen: 0,
    };
    drop(appending(folder, path, how)?);
    Ok(())
}

// The folders on the way to a file are made where that is asked, each with its mode.
fn folders(folder: &Folder) -> Result<String, Fail> {
    let path = folder.at("a/b/out")?;
    let mut text = folder.word(opened(folder, path.as_bytes()))?;
    make(folder, path.as_bytes())?;
    for name in ["a", "a/b", "a/b/out"] {
        text.push_str(folder.mode(name)?.as_str())?;
    }
    Ok(text)
}

// A link to nothing isn't followed.
fn dangling(folder: &Folder) -> Result<String, Fail> {
    let link = folder.link("out", "target")?;
    let opened = opened(folder, link.as_bytes());
    let absent = presence(folder.has("target")?);
    Ok(format!(in folder.alloc; "{opened} {absent}")?)
}
