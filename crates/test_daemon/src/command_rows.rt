// Commands over a machine whose input is one line.
use crate::answer::{answer, is_text};
use crate::machine::{field, with_input};
use std::alloc::{AllocError, Global};
use std::sync::Wait;
use std::test::Fail;
use std::thread::Threads;

// Words, the exit status, and what is said, with `~` for LF.
const ROWS: &str = "\
check c;0;c: ok~
check bad;2;bad:1: version not supported~
check none;3;cannot read none~
check;1;usage: syslogr check FILE | trace FILE SOURCE INPUT | run FILE [--once] [--rounds N] | spool FILE | drill N~
trace c s in;0;record 0 destination 0 flow yes length 2~x~~
trace c x in;2;c:0: unknown name~
trace bad s in;2;bad:1: version not supported~
trace c s none;4;cannot open inlet 0~
run bad;2;bad:1: version not supported~
run none --once --rounds 3;3;cannot read none~
spool none;4;cannot open store 0~
drill 1000;0;source 0 records 1000 bad-frames 0 position 44310~destination 0 taken 500 dropped-full 0 dropped-disk 0 left 0~destination 1 taken 500 dropped-full 0 dropped-disk 0 left 0~status 0~
--version;0;syslogr 0.1.0~
--help;0;usage: syslogr check FILE | trace FILE SOURCE INPUT | run FILE [--once] [--rounds N] | spool FILE | drill N~
run;1;usage: syslogr check FILE | trace FILE SOURCE INPUT | run FILE [--once] [--rounds N] | spool FILE | drill N~
run c --rounds 0;1;usage: syslogr check FILE | trace FILE SOURCE INPUT | run FILE [--once] [--rounds N] | spool FILE | drill N~
trace c s;1;usage: syslogr check FILE | trace FILE SOURCE INPUT | run FILE [--once] [--rounds N] | spool FILE | drill N~
spool q q;1;usage: syslogr check FILE | trace FILE SOURCE INPUT | run FILE [--once] [--rounds N] | spool FILE | drill N~
drill 0;1;usage: syslogr check FILE | trace FILE SOURCE INPUT | run FILE [--once] [--rounds N] | spool FILE | drill N~
drill 100001;1;usage: syslogr check FILE | trace FILE SOURCE INPUT | run FILE [--once] [--rounds N] | spool FILE | drill N~
drill;1;usage: syslogr check FILE | trace FILE SOURCE INPUT | run FILE [--once] [--rounds N] | spool FILE | drill N~
start c;1;usage: syslogr check FILE | trace FILE SOURCE INPUT | run FILE [--once] [--rounds N] | spool FILE | drill N~
--help check;1;usage: syslogr check FILE | trace FILE SOURCE INPUT | run FILE [--once] [--rounds N] | spool FILE | drill N~
";

fn run_command<T: Threads + Wait + Eprint + Sync>(
    rt: &T,
    alloc: Global,
    line: &str,
) -> Result<Vec<u8>, AllocError> {
    let mut machine = with_input(alloc, b"x\n")?;
    answer(rt, alloc, line, &mut machine)
}

// Whether a row holds, and whether it was understood.
fn holds<T: Threads + Wait + Eprint + Sync>(
    rt: &T,
    alloc: Global,
    row: &str,
) -> Result<bool, AllocError> {
    let Some((line, wanted)) = field(row) else {
        return Ok(false);
    };
    let said = run_command(rt, alloc, line)?;
    is_text(alloc, &said, wanted)
}

#[test]
fn commands(rt: HostRuntime) -> Result<(), Fail> {
    for row in ROWS.lines() {
        assert!(rt; holds(&rt, rt.alloc(), row)?, "{row}");
    }
    Ok(())
}
