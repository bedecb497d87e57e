// Stores, sources and destinations over real files, and a machine that opens and closes them.
use crate::folder::Folder;
use crate::{destinations, ledgers, sources, stores};
use std::test::Fail;
use std::thread::Threads;

// A step, and what it comes to.
const STEPS: &str = "\
store lock = opened refused refused opened
store fresh = opened 128 zeros mode 600 names 1
store existing = opened 3 bytes mode 644
store planted = opened untouched
store dangling = refused absent
store missing = refused absent
store folder = refused
store socket = refused
store name = refused
store short = 3 0
store truncated = 4 refused 2 refused faults 2 again 4
store gathered = 128 135 abcdegh abCdegh
source places = 0 4 0 0 8 0 11 0 0
source moments = 0 1500000 250000000000000000
source once = abc:de:.:.:
source idle = abc:-:-:
source grown = abc:-:de:
source shorter = abc:-:fault:fault:
source regrown = abc:-:fault:
source rewritten = abc:-:fault:
source replaced = abc:-:fault:
source unlinked = abc:-:-:
source hung = abc:.:.:
source folder = refused
source socket = refused
source device = refused
source name = refused
source missing = refused
destination modes = mode 640 mode 600 mode 444
destination appended = taken 2 taken 3 abcdabcab
destination full = taken 0
destination unsynced = taken 0
destination later = later later
destination ready = ready ready
destination moved = old a new b
destination folder = refused
destination socket = refused
destination device = opened
destination dangling = refused absent
destination name = refused
destination folders = refused mode 775 mode 775 mode 600
file whole = 5 bytes
file long = too long
file folder = failed 1
file socket = failed 1
file name = failed 1
machine file inlet = at 4 bytes 2 failed 1
machine slot inlets = at 0 parts 1 at 0 parts 1 failed 1
machine slot limit = next next 1 2 - - next - 4 -
machine file outlet = taken 2 failed 1
machine own source = refused refused fault opened
machine own store = refused opened
machine tcp outlet = taken 1 failed 1
machine store = 128 0 failed 1
machine paths = abcd failed 1 other false
machine several paths = abef cdgh
machine unsynced path = refused 1
machine early path = failed 1 early 1
machine unused path = false true
machine said = said
machine timer = false true false true
";

// Runs the steps one after another, each over a folder of its own.
#[test]
fn files(rt: HostRuntime) -> Result<(), Fail> {
    for line in STEPS.lines() {
        let (step, want) = line.split_once(" = ").ok_or("no answer")?;
        let folder = Folder::new(rt)?;
        let got = take(rt, &folder, step)?;
        folder.remove()?;
        assert_eq!(rt; (step, got.as_str()), (step, want));
    }
    Ok(())
}

// What a step comes to.
fn take<T: Threads + Copy + Send>(threads: T, folder: &Folder, step: &str) -> Result<String, Fail> {
    match step.split_once(' ') {
        Some(("store", what)) => stores::take(folder, what),
        Some(("source", what)) => sources::take(&threads, folder, what),
        Some(("destination", what)) => destinations::take(folder, what),
        Some(("file", what)) => stores::read(folder, what),
        Some(("machine", what)) => ledgers::take(threads, folder, what),
        _ => Err("no such step".into()),
    }
}
