// What the words of the command line ask for.
ghost use Rattle.std.specs.Prelude.{◌≡◌, ◌<◌, ◌≤◌, codes, IfSome};
ghost use Rattle.std.specs.Option.{option_map};
ghost use Rattle.std.specs.Str.{bytes_eq};
ghost use Rattle.sg_words.specs.Words as spec;

use crate::numbers::{MOST_RECORDS, MOST_ROUNDS, number_of};
use sg_device::Name;

/// What the program is asked to do.
#[derive(Clone, Copy, Drop)]
pub enum Command<'a> {
    /// `check FILE`
    Check(&'a [u8]),
    /// `trace FILE SOURCE INPUT`
    Trace {
        file: &'a [u8],
        source: &'a [u8],
        input: &'a [u8],
    },
    /// `run FILE [--once] [--rounds N]`, N being 1 to 68,719,476,736, which is the default.
    Run {
        file: &'a [u8],
        once: bool,
        rounds: u64,
    },
    /// `spool FILE`
    Spool(&'a [u8]),
    /// `drill N`, N being 1 to 100,000.
    Drill(u64),
    /// `--help`
    Help,
    /// `--version`
    Version,
}

fn is_word(word: &Name, text: &[u8]) -> bool
    ensures { result ≡ bytes_eq word.now text.now }
{
    word.bytes() == text
}

fn check_of(words: &[Name]) -> Option<Command<'_>>
    ensures within { IfSome result spec.IsCommandWithin }
    ensures asked { option_map spec.asked_by result ≡ spec.one_file spec.check words.now }
{
    match words {
        [file] => Some(Command::Check(file.bytes())),
        _ => None,
    }
}

fn spool_of(words: &[Name]) -> Option<Command<'_>>
    ensures within { IfSome result spec.IsCommandWithin }
    ensures asked { option_map spec.asked_by result ≡ spec.one_file spec.spool words.now }
{
    match words {
        [file] => Some(Command::Spool(file.bytes())),
        _ => None,
    }
}

fn trace_of(words: &[Name]) -> Option<Command<'_>>
    ensures within { IfSome result spec.IsCommandWithin }
    ensures asked { option_map spec.asked_by result ≡ spec.trace_of words.now }
{
    match words {
        [file, source, input] => Some(Command::Trace {
            file: file.bytes(),
            source: source.bytes(),
            input: input.bytes(),
        }),
        _ => None,
    }
}

fn rounds_in(words: &[Name]) -> Option<u64>
    ensures value { result ≡ spec.rounds_in words.now }
    ensures bound { IfSome result (λ n. (0 < n) × (n ≤ 68_719_476_736)) }
{
    match words {
        [] => Some(MOST_ROUNDS),
        [word, number] => {
            if is_word(word, b"--rounds") {
                number_of(MOST_ROUNDS, number.bytes())
            } else {
                None
            }
        }
        _ => None,
    }
}

fn run_rounds<'a>(file: &'a [u8], once: bool, words: &[Name]) -> Option<Command<'a>>
    ensures within { IfSome result spec.IsCommandWithin }
    ensures asked { option_map spec.asked_by result
        ≡ option_map (spec.run file.now once) (spec.rounds_in words.now) }
{
    match rounds_in(words) {
        Some(rounds) => Some(Command::Run { file, once, rounds }),
        None => None,
    }
}

fn run_with<'a>(file: &'a [u8], words: &[Name]) -> Option<Command<'a>>
    ensures within { IfSome result spec.IsCommandWithin }
    ensures asked { option_map spec.asked_by result ≡ spec.run_with file.now words.now }
{
    match words {
        [] => run_rounds(file, false, words),
        [word, rest @ ..] => {
            if is_word(word, b"--once") {
                run_rounds(file, true, rest)
            } else {
                run_rounds(file, false, words)
            }
        }
    }
}

fn run_of(words: &[Name]) -> Option<Command<'_>>
    ensures within { IfSome result spec.IsCommandWithin }
    ensures asked { option_map spec.asked_by result ≡ spec.run_of words.now }
{
    match words {
        [file, rest @ ..] => run_with(file.bytes(), rest),
        [] => None,
    }
}

fn drill_of(words: &[Name]) -> Option<Command<'_>>
    ensures within { IfSome result spec.IsCommandWithin }
    ensures asked { option_map spec.asked_by result ≡ spec.drill_of words.now }
{
    match words {
        [number] => match number_of(MOST_RECORDS, number.bytes()) {
            Some(records) => Some(Command::Drill(records)),
            None => None,
        },
        _ => None,
    }
}

fn help_of(words: &[Name]) -> Option<Command<'_>>
    ensures within { IfSome result spec.IsCommandWithin }
    ensures asked { option_map spec.asked_by result ≡ spec.alone spec.help words.now }
{
    match words {
        [] => Some(Command::Help),
        _ => None,
    }
}

fn version_of(words: &[Name]) -> Option<Command<'_>>
    ensures within { IfSome result spec.IsCommandWithin }
    ensures asked { option_map spec.asked_by result ≡ spec.alone spec.version words.now }
{
    match words {
        [] => Some(Command::Version),
        _ => None,
    }
}

fn told_of<'a>(word: &Name, words: &'a [Name]) -> Option<Command<'a>>
    ensures within { IfSome result spec.IsCommandWithin }
    ensures asked { option_map spec.asked_by result ≡ spec.told_behind word.now words.now }
{
    if is_word(word, b"--help") {
        return help_of(words);
    }
    if is_word(word, b"--version") {
        return version_of(words);
    }
    None
}

fn command_behind<'a>(word: &Name, words: &'a [Name]) -> Option<Command<'a>>
    ensures within { IfSome result spec.IsCommandWithin }
    ensures asked { option_map spec.asked_by result ≡ spec.asked_behind word.now words.now }
{
    if is_word(word, b"check") {
        return check_of(words);
    }
    if is_word(word, b"trace") {
        return trace_of(words);
    }
    if is_word(word, b"run") {
        return run_of(words);
    }
    if is_word(word, b"spool") {
        return spool_of(words);
    }
    if is_word(word, b"drill") {
        return drill_of(words);
    }
    told_of(word, words)
}

/// What the words of the command line ask for, without the program's name; none where they are of no
/// command.
pub fn command_of(words: &[Name]) -> Option<Command<'_>>
    ensures within { IfSome result spec.IsCommandWithin }
    ensures asked { option_map spec.asked_by result ≡ spec.asked words.now }
{
    match words {
        [word, rest @ ..] => command_behind(word, rest),
        [] => None,
    }
}
