// The top calls.
ghost use Rattle.sg_words.specs.Words.{asked};
ghost use Rattle.sg_daemon.specs.Answers.{AnswersCommand};
ghost use Rattle.sg_daemon.specs.Offline.{IsOffline};
ghost use Rattle.sg_serve.specs.Exits.{way_of};

use crate::check::check;
use crate::drill::drill;
use crate::run::run;
use crate::say::{tell_usage, tell_version};
use crate::spooled::spool;
use crate::status::Status;
use crate::trace::trace;
use sg_device::Name;
use sg_run::End;
use sg_words::{Command, command_of};
use sg_world::World;
use std::alloc::Global;
use std::sync::Wait;
use std::thread::Threads;

/// Does what the words of the command line ask for, without the program's name, where that is neither a run nor a
/// drill, and answers how it ended.
///
/// `check FILE` says whether FILE is a configuration. `trace FILE SOURCE INPUT` says what becomes of the records of
/// INPUT on its log paths. `spool FILE` lists the entries of the disk-buffer's store FILE. `--help` says how the
/// program is used, as any words of no command do, and `--version` which version it is. It has no runtime to wait by,
/// and so it returns.
pub fn offline<W: World>(alloc: Global, words: &[Name], world: &mut W) -> Status
    requires { IsOffline words.now }
    ensures { AnswersCommand W.Feed.state (way_of W.Drain.state W.Paths.state W.Store.state)
        (W.state world.old) (W.state world.new)
        (asked words.now) result }
{
    match command_of(words) {
        Some(Command::Check(file)) => check(alloc, file, world),
        Some(
            Command::Trace {
                file,
                source,
                input,
            },
        ) => trace(alloc, file, source, input, world),
        Some(Command::Run { .. }) => unreachable!(),
        Some(Command::Spool(file)) => spool(alloc, file, world),
        Some(Command::Drill(_)) => unreachable!(),
        Some(Command::Help) => tell_usage(alloc, Status::Ended(End::Clean), world),
        Some(Command::Version) => tell_version(alloc, world),
        None => tell_usage(alloc, Status::Usage, world),
    }
}

/// Does what the words of the command line ask for, without the program's name, and answers how it ended.
///
/// `run FILE [--once] [--rounds N]` moves messages as the configuration FILE says, N rounds at most: with `--once`
/// until all input was taken. `drill N` moves N records through a fixed configuration over devices in memory. All
/// other words are those of `offline`.
pub fn daemon<T: Threads + Wait + Eprint + Sync, W: World>(
    rt: &T,
    alloc: Global,
    words: &[Name],
    world: &mut W,
) -> Status
    ensures { AnswersCommand W.Feed.state (way_of W.Drain.state W.Paths.state W.Store.state)
        (W.state world.old) (W.state world.new)
        (asked words.now) result }
{
    match command_of(words) {
        Some(Command::Run { file, once, rounds }) => run(rt, alloc, file, once, rounds, world),
        Some(Command::Drill(records)) => drill(rt, alloc, records, world),
        _ => offline(alloc, words, world),
    }
}
