// Configurations as texts, run and checked.
use crate::answer::{answer, is_text, run};
use crate::machine::{add_file, text, with_files};
use sg_memory::MemoryFile;
use sg_world::MemoryMachine;
use std::alloc::{AllocError, Global};
use std::sync::Wait;
use std::test::Fail;
use std::thread::Threads;

// Files that configurations include.
const PARTS: &str =
    r#"blocks => # sources and destinations~block source local(path()) { file("`path`" flags(no-parse)); };~block destination lines(path(out)) { file("`path`" template("$MSG\n")); };~
log => log { source(s); destination(d); flags(flow-control); };~
faulty => x~~y "~
"#;

// A configuration `c`, and behind ` => ` its run over the input `one` and `two`: the frames taken; the exit status; what is said. `~` is LF.
// `check` answers 2 and 3 as the run does.
const TEXTS: &str =
    r#"@version: 4.2~@define OUT out~source s { file("in" flags(no-parse)); }; # a comment~destination d { file("`OUT`" template("$MSG\n")); };~log { source(s); destination(d); flags(flow-control); };~ => one~two~;0;source 0 records 2 bad-frames 0 position 8~destination 0 taken 2 dropped-full 0 dropped-disk 0 left 0~status 0~
@version: 4.2~@include "blocks"~source s{local(path('in'));};destination d{lines();};@include "log"~ => one~two~;0;source 0 records 2 bad-frames 0 position 8~destination 0 taken 2 dropped-full 0 dropped-disk 0 left 0~status 0~
@version:4.10 source "s" { file(in, flags(no-parse)); }; destination d { file("out" template("$MSG~")); }; @include 'log' => one~two~;0;source 0 records 2 bad-frames 0 position 8~destination 0 taken 2 dropped-full 0 dropped-disk 0 left 0~status 0~
@version: 4.2~log { source { file("in"); }; filter { not message("three"); }; destination { file("out" template("$(format)")); }; };~ => ;2;c:2: template function~
@version: 4.2~log { source { file("in"); }; filter { message("one|two"); }; destination { file("out" template("$MSG~")); }; };~ => one~two~;0;source 0 records 2 bad-frames 0 position 8~destination 0 taken 2 dropped-full 0 dropped-disk 0 left 0~status 0~
@version: 4.2~block source local(path()) { file("`path`" flags(no-parse)); };~source s { local(); };~@include "log"~ => ;2;c:3: argument missing~
@version: 3.38~ => ;2;c:1: version not supported~
@version: 4.2~@include "faulty"~ => ;2;faulty:3: string not closed~
@version: 4.2~log { `NO`; };~ => ;2;c:2: unknown variable~
@version: 4.2~@include "conf.d/*.conf"~ => ;2;c:2: not supported~
@version: 4.2~@include "c"~ => ;2;c:2: includes nested too deep~
@version: 4.2~@include "none"~ => ;3;cannot read none~
@version: 4.2~source s { file("no"); };~destination d { file("out"); };~@include "log"~ => ;4;cannot open inlet 0~
"#;

// The two parts of a row.
fn halves(row: &str) -> Option<(&str, &str)> {
    row.split_once(" => ")
}

// Adds a file with a text of a row.
fn add_text(
    alloc: Global,
    name: &str,
    row: &str,
    files: &mut Vec<MemoryFile>,
) -> Result<(), AllocError> {
    let bytes = text(alloc, row)?;
    add_file(alloc, name.as_bytes(), &bytes, files)
}

// Adds the files that configurations include. Whether each row of them was understood.
fn add_parts(alloc: Global, files: &mut Vec<MemoryFile>) -> Result<bool, AllocError> {
    for row in PARTS.lines() {
        let Some((name, part)) = halves(row) else {
            return Ok(false);
        };
        add_text(alloc, name, part, files)?;
    }
    Ok(true)
}

// This configuration, the input, and the files that configurations include.
fn files(alloc: Global, config: &str) -> Result<Vec<MemoryFile>, Fail> {
    let mut files = Vec::new(alloc);
    add_text(alloc, "c", config, &mut files)?;
    add_file(alloc, b"in", b"one\ntwo\n", &mut files)?;
    if !add_parts(alloc, &mut files)? {
        return Err(Fail::new("a file is missing"));
    }
    Ok(files)
}

// A machine with this configuration.
fn with_config(alloc: Global, config: &str) -> Result<MemoryMachine, Fail> {
    Ok(with_files(alloc, files(alloc, config)?))
}

fn run_config<T: Threads + Wait + Eprint + Sync>(
    rt: &T,
    alloc: Global,
    config: &str,
) -> Result<Vec<u8>, Fail> {
    let mut machine = with_config(alloc, config)?;
    Ok(run(rt, alloc, "run c --once", &mut machine)?)
}

fn check_config<T: Threads + Wait + Eprint + Sync>(
    rt: &T,
    alloc: Global,
    config: &str,
) -> Result<Vec<u8>, Fail> {
    let mut machine = with_config(alloc, config)?;
    Ok(answer(rt, alloc, "check c", &mut machine)?)
}

// What `check` answers where a run comes to this.
fn checked(ran: &str) -> &str {
    match ran.strip_prefix(';') {
        Some(answer) if answer.starts_with("2;") || answer.starts_with("3;") => answer,
        _ => "0;c: ok~",
    }
}

// Whether a configuration runs so.
fn runs_so<T: Threads + Wait + Eprint + Sync>(
    rt: &T,
    alloc: Global,
    config: &str,
    ran: &str,
) -> Result<bool, Fail> {
    let said = run_config(rt, alloc, config)?;
    Ok(is_text(alloc, &said, ran)?)
}

// Whether it is checked so.
fn checks_so<T: Threads + Wait + Eprint + Sync>(
    rt: &T,
    alloc: Global,
    config: &str,
    ran: &str,
) -> Result<bool, Fail> {
    let said = check_config(rt, alloc, config)?;
    Ok(is_text(alloc, &said, checked(ran))?)
}

// Whether a row holds, and whether it was understood.
fn holds<T: Threads + Wait + Eprint + Sync>(
    rt: &T,
    alloc: Global,
    row: &str,
) -> Result<bool, Fail> {
    let Some((config, ran)) = halves(row) else {
        return Ok(false);
    };
    Ok(runs_so(rt, alloc, config, ran)? && checks_so(rt, alloc, config, ran)?)
}

#[test]
fn texts(rt: HostRuntime) -> Result<(), Fail> {
    for row in TEXTS.lines() {
        assert!(rt; holds(&rt, rt.alloc(), row)?, "{row}");
    }
    Ok(())
}
