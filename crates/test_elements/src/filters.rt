// Filters over messages.

use sg_device::Name;
use sg_filter::{Expr, Filter};
use sg_lex::{Cmp, Line};
use sg_msg::Message;
use sg_pattern::{BuildRefusal, Flags, Kind, PatternText, Patterns};
use sg_template::Template;
use sg_time::Stamp;
use sqlite_items::{Boxed, Items};
use std::alloc::{AllocError, Global};
use std::test::Fail;

const STAMP: Stamp = Stamp {
    at: 1_500_000,
    offset: 60,
};

const LINE: Line = Line {
    file: 0,
    line: 7,
    at: 40,
};

// Each character of this text and of the next two is the byte of that number. A message: its PRI, its pairs,
// and its tags behind `#`.
const MESSAGES: &str = "\
38;HOST=web1;MESSAGE=Failed for root from 10.0.0.1;PID=42;PROGRAM=sshd
11;MESSAGE=error: disk
12;MESSAGE=abc
13;MESSAGE=\u{ff}a\u{fe}\u{ff}
0;
191;MESSAGE=x;#red;#blue
165;A=10;B=9;C=[@;MESSAGE=10
13;MESSAGE=;k=AbAB aB
";

// The named expressions, in the order of their places.
const NAMED: &str = "\
level 0-3
named 0; not
named 1; facility 1-1; and 2
";

// An expression, its calls before what joins them, and for each message whether it holds. A field's words are its
// name, the kind of its pattern, the flags (i ignore-case, p prefix, s substring, - none), and the pattern.
const ROWS: &str = "\
level 0-3 ~ 01001000
level 3-3 ~ 01000000
level 4-7 ~ 10110111
level  ~ 00000000
facility 1-1 ~ 01110001
facility 4-4,20-23 ~ 10000110
facility 0-23 ~ 11111111
field PROGRAM regex - ^ssh ~ 10000000
field MESSAGE regex - error|fail ~ 01000000
field MESSAGE regex i error|fail ~ 11000000
field MESSAGE regex - (?-u:\\xff) ~ 00010000
field MESSAGE regex - ^$ ~ 00001001
field PRI regex - 3 ~ 00000000
field PRI regex - ^$ ~ 11111111
field k text - AbAB aB ~ 00000001
field k text - AbAB ~ 00000000
field k text - abab aB ~ 00000000
field k text i abab AB ~ 00000001
field k text p Ab ~ 00000001
field k text p AB ~ 00000000
field k text ip aB ~ 00000001
field k text s AB ~ 00000001
field k text s ABA ~ 00000000
field MESSAGE text is ROOT ~ 10000000
field MESSAGE text s root ~ 10000000
field MESSAGE text p root ~ 00000000
field MESSAGE text s \u{fe}\u{ff} ~ 00010000
field C text i [@ ~ 00000010
field C text i {` ~ 00000000
field MESSAGE glob - *ro?t* ~ 10000000
field MESSAGE glob - a?c ~ 00100000
field MESSAGE glob - root ~ 00000000
field MESSAGE glob - * ~ 11111111
tags red ~ 00000100
tags green,blue ~ 00000100
tags green ~ 00000000
compare $A eq 10 ~ 00000010
compare $A ne 10 ~ 11111101
compare $A lt $B ~ 00000010
compare $A ge $B ~ 11111101
compare $A gt $MSG ~ 00000000
compare $A le $MSG ~ 11111111
compare $PRI gt 165 ~ 10000100
compare $LEVEL eq err ~ 01000000
compare $FACILITY le daemon ~ 10000000
compare $STAMP eq Jan  1 01:00:01 ~ 11111111
compare $MSG ne  ~ 11110110
level 0-3; not ~ 10110111
level 0-3; field MESSAGE regex - error; and 2 ~ 01000000
and 0 ~ 11111111
or 0 ~ 00000000
facility 1-1; level 0-3; not; and 2 ~ 00110001
tags red; field PROGRAM regex - ssh; level 3-3; or 3 ~ 11000100
facility 1-1; level 5-5; and 2; tags red; or 2; not ~ 11101010
named 0 ~ 01001000
named 1 ~ 10110111
named 2 ~ 00110001
named 2; named 0; or 2 ~ 01111001
named 2; not; not ~ 00110001
field MESSAGE regex - a( ~ bad
named 0; field MESSAGE regex - \\p{No}; and 2 ~ 00000000
field MESSAGE regex - (\\w{1000}){1000} ~ large
level 0-0; field MESSAGE regex - [b-a]; or 2 ~ bad
";

// The bytes that the characters stand for.
fn bytes_of(alloc: Global, text: &str) -> Result<Vec<u8>, AllocError> {
    let mut bytes = Vec::new(alloc);
    for letter in text.chars() {
        bytes.push((letter as u32 % 256) as u8)?;
    }
    Ok(bytes)
}

fn name_of(alloc: Global, text: &str) -> Result<Name, AllocError> {
    Ok(Name::from_vec(bytes_of(alloc, text)?))
}

fn names_of(alloc: Global, text: &str) -> Result<Items<Name>, AllocError> {
    let mut names = Items::new(alloc);
    for name in text.split(',') {
        names.push(name_of(alloc, name)?)?;
    }
    Ok(names)
}

// `3-5`
fn range_of(text: &str) -> Option<(u8, u8)> {
    let Some((first, last)) = text.split_once('-') else {
        return None;
    };
    match (first.parse::<u8>(), last.parse::<u8>()) {
        (Ok(first), Ok(last)) => Some((first, last)),
        _ => None,
    }
}

// `3-5,7-7`
fn ranges_of(alloc: Global, text: &str) -> Option<Items<(u8, u8)>> {
    let mut ranges = Items::new(alloc);
    if text.is_empty() {
        return Some(ranges);
    }
    for text in text.split(',') {
        let Some(range) = range_of(text) else {
            return None;
        };
        if ranges.push(range).is_err() {
            return None;
        }
    }
    Some(ranges)
}

// Sets this pair. Says whether it could.
fn set(message: &mut Message, name: &[u8], value: &[u8]) -> bool {
    if name.is_empty() || name.len() > 255 {
        return false;
    }
    message.set(name, value).is_ok()
}

// A pair more.
fn put_pair(alloc: Global, message: &mut Message, name: &str, value: &str) -> bool {
    match bytes_of(alloc, value) {
        Ok(value) => set(message, name.as_bytes(), &value),
        Err(_) => false,
    }
}

// A pair or a tag more.
fn put(alloc: Global, message: &mut Message, item: &str) -> bool {
    if let Some(tag) = item.strip_prefix('#') {
        return message.set_tag(tag.as_bytes()).is_ok();
    }
    match item.split_once('=') {
        Some((name, value)) => put_pair(alloc, message, name, value),
        None => false,
    }
}

// The pairs and tags of a row more.
fn put_all(alloc: Global, message: &mut Message, items: &str) -> bool {
    if items.is_empty() {
        return true;
    }
    for item in items.split(';') {
        if !put(alloc, message, item) {
            return false;
        }
    }
    true
}

fn message_without_pairs(alloc: Global, pri: u8) -> Option<Message> {
    if pri > 191 {
        return None;
    }
    Message::new(alloc, pri, STAMP, STAMP).ok()
}

fn message_of(alloc: Global, row: &str) -> Option<Message> {
    let Some((pri, items)) = row.split_once(';') else {
        return None;
    };
    let Ok(pri) = pri.parse::<u8>() else {
        return None;
    };
    let Some(mut message) = message_without_pairs(alloc, pri) else {
        return None;
    };
    if put_all(alloc, &mut message, items) {
        Some(message)
    } else {
        None
    }
}

fn messages(alloc: Global) -> Result<Vec<Message>, Fail> {
    let mut all = Vec::new(alloc);
    for row in MESSAGES.lines() {
        let message = message_of(alloc, row).ok_or("no message")?;
        all.push(message)?;
    }
    Ok(all)
}

fn kind_of(word: &str) -> Option<Kind> {
    match word {
        "regex" => Some(Kind::Regex),
        "text" => Some(Kind::Text),
        "glob" => Some(Kind::Glob),
        _ => None,
    }
}

// Whether each letter is that of a flag; `-` is none.
fn are_flags(word: &str) -> bool {
    if word == "-" {
        return true;
    }
    for letter in word.chars() {
        if !(letter == 'i' || letter == 'p' || letter == 's' || letter == 'g') {
            return false;
        }
    }
    !word.is_empty()
}

fn flags_of(word: &str) -> Flags {
    Flags {
        ignore_case: word.contains('i'),
        prefix: word.contains('p'),
        substring: word.contains('s'),
        global: word.contains('g'),
    }
}

fn cmp_of(word: &str) -> Option<Cmp> {
    match word {
        "eq" => Some(Cmp::Eq),
        "ne" => Some(Cmp::Ne),
        "lt" => Some(Cmp::Lt),
        "gt" => Some(Cmp::Gt),
        "le" => Some(Cmp::Le),
        "ge" => Some(Cmp::Ge),
        _ => None,
    }
}

fn pattern_of(alloc: Global, kind: &str, letters: &str, text: &str) -> Option<PatternText> {
    let Some(kind) = kind_of(kind) else {
        return None;
    };
    if !are_flags(letters) {
        return None;
    }
    match name_of(alloc, text) {
        Ok(text) => Some(PatternText {
            kind,
            text,
            flags: flags_of(letters),
            line: LINE,
        }),
        Err(_) => None,
    }
}

// `regex - text`
fn pattern_in(alloc: Global, text: &str) -> Option<PatternText> {
    let Some((kind, rest)) = text.split_once(' ') else {
        return None;
    };
    match rest.split_once(' ') {
        Some((letters, text)) => pattern_of(alloc, kind, letters, text),
        None => None,
    }
}

fn field_of(alloc: Global, text: &str) -> Option<Expr> {
    let Some((name, rest)) = text.split_once(' ') else {
        return None;
    };
    let Some(pattern) = pattern_in(alloc, rest) else {
        return None;
    };
    match name_of(alloc, name) {
        Ok(name) => Some(Expr::Field { name, pattern }),
        Err(_) => None,
    }
}

fn comparison(alloc: Global, left: &str, cmp: Cmp, right: &str) -> Option<Expr> {
    let Ok(left) = Template::read(alloc, left.as_bytes()) else {
        return None;
    };
    match Template::read(alloc, right.as_bytes()) {
        Ok(right) => Some(Expr::Compare { left, cmp, right }),
        Err(_) => None,
    }
}

fn compare_of(alloc: Global, text: &str) -> Option<Expr> {
    let Some((left, rest)) = text.split_once(' ') else {
        return None;
    };
    let Some((cmp, right)) = rest.split_once(' ') else {
        return None;
    };
    match cmp_of(cmp) {
        Some(cmp) => comparison(alloc, left, cmp, right),
        None => None,
    }
}

fn level_of(alloc: Global, text: &str) -> Option<Expr> {
    match ranges_of(alloc, text) {
        Some(ranges) => Some(Expr::Level(ranges)),
        None => None,
    }
}

fn facility_of(alloc: Global, text: &str) -> Option<Expr> {
    match ranges_of(alloc, text) {
        Some(ranges) => Some(Expr::Facility(ranges)),
        None => None,
    }
}

fn tags_of(alloc: Global, text: &str) -> Option<Expr> {
    match names_of(alloc, text) {
        Ok(names) => Some(Expr::Tags(names)),
        Err(_) => None,
    }
}

fn named_of(text: &str) -> Option<Expr> {
    match text.parse::<u32>() {
        Ok(place) => Some(Expr::Named(place)),
        Err(_) => None,
    }
}

// A call that joins none.
fn call_of(alloc: Global, word: &str, text: &str) -> Option<Expr> {
    match word {
        "level" => level_of(alloc, text),
        "facility" => facility_of(alloc, text),
        "tags" => tags_of(alloc, text),
        "field" => field_of(alloc, text),
        "compare" => compare_of(alloc, text),
        "named" => named_of(text),
        _ => None,
    }
}

// The last so many, the first of them first.
fn taken(read: &mut Vec<Expr>, text: &str) -> Option<Items<Expr>> {
    let Ok(count) = text.parse::<usize>() else {
        return None;
    };
    if count > read.len() {
        return None;
    }
    let from = read.len() - count;
    match read.split_off(from) {
        Ok(terms) => Some(Items::from_vec(terms)),
        Err(_) => None,
    }
}

fn and_of(read: &mut Vec<Expr>, text: &str) -> Option<Expr> {
    match taken(read, text) {
        Some(terms) => Some(Expr::And(terms)),
        None => None,
    }
}

fn or_of(read: &mut Vec<Expr>, text: &str) -> Option<Expr> {
    match taken(read, text) {
        Some(terms) => Some(Expr::Or(terms)),
        None => None,
    }
}

fn not_of(alloc: Global, read: &mut Vec<Expr>) -> Option<Expr> {
    let Some(term) = read.pop() else {
        return None;
    };
    match Boxed::new(alloc, term) {
        Ok(term) => Some(Expr::Not(term)),
        Err(_) => None,
    }
}

// A call, or what joins those before it.
fn term_of(alloc: Global, read: &mut Vec<Expr>, word: &str, text: &str) -> Option<Expr> {
    match word {
        "and" => and_of(read, text),
        "or" => or_of(read, text),
        "not" => not_of(alloc, read),
        _ => call_of(alloc, word, text),
    }
}

// One more of them. Says whether its words are understood.
fn read_one(alloc: Global, read: &mut Vec<Expr>, call: &str) -> bool {
    let (word, text) = call.split_once(' ').unwrap_or((call, ""));
    match term_of(alloc, read, word, text) {
        Some(term) => read.push(term).is_ok(),
        None => false,
    }
}

// All of them. Says whether their words are understood.
fn read_all(alloc: Global, read: &mut Vec<Expr>, text: &str) -> bool {
    for call in text.split("; ") {
        if !read_one(alloc, read, call) {
            return false;
        }
    }
    read.len() == 1
}

// The expression, if its words are understood.
fn expr_of(alloc: Global, text: &str) -> Option<Expr> {
    let mut read = Vec::new(alloc);
    if read_all(alloc, &mut read, text) {
        read.pop()
    } else {
        None
    }
}

fn named(alloc: Global) -> Result<Vec<Expr>, Fail> {
    let mut all = Vec::new(alloc);
    for row in NAMED.lines() {
        let expr = expr_of(alloc, row).ok_or("no expression")?;
        all.push(expr)?;
    }
    Ok(all)
}

// Whether two filters say the same of the message, and what.
fn digit(filter: &mut Filter, other: &mut Filter, message: &Message) -> Result<char, AllocError> {
    let holds = filter.holds(message)?;
    let same = other.holds(message)? == holds;
    Ok(match (same, holds) {
        (true, true) => '1',
        (true, false) => '0',
        (false, _) => '!',
    })
}

// For each message whether two filters hold.
fn digits_of(
    alloc: Global,
    filter: &mut Filter,
    other: &mut Filter,
    messages: &[Message],
) -> Result<String, AllocError> {
    let mut text = String::new(alloc);
    for message in messages {
        text.push(digit(filter, other, message)?)?;
    }
    Ok(text)
}

// For each message whether the filter holds, and an equal one does.
fn digits(alloc: Global, filter: &mut Filter, messages: &[Message]) -> Result<String, AllocError> {
    let mut other = filter.share(alloc)?;
    digits_of(alloc, filter, &mut other, messages)
}

// The word of a row for this refusal, where this count of patterns was too large.
fn word_of(refusal: BuildRefusal, too_large: u64) -> &'static str {
    match refusal {
        BuildRefusal::BadPattern(line) if line == LINE => "bad",
        BuildRefusal::TooLarge(line) if line == LINE && too_large == 1 => "large",
        _ => "another refusal",
    }
}

// For each message whether the filter holds, or the word for the refusal.
fn answers(
    alloc: Global,
    expr: &Expr,
    named: &[Expr],
    messages: &[Message],
) -> Result<String, AllocError> {
    let mut patterns = Patterns::new(alloc);
    let mut made = Filter::new(alloc, &mut patterns, expr, named);
    match &mut made {
        Ok(filter) => digits(alloc, filter, messages),
        Err(refusal) => String::from_str(alloc, word_of(*refusal, patterns.too_large)),
    }
}

// Whether the expression's filter answers so.
fn gives(alloc: Global, expr: &Expr, named: &[Expr], messages: &[Message], expected: &str) -> bool {
    match answers(alloc, expr, named, messages) {
        Ok(text) => text.as_str() == expected,
        Err(_) => false,
    }
}

// Whether a row holds, and whether it was understood.
fn holds(alloc: Global, row: &str, named: &[Expr], messages: &[Message]) -> bool {
    let Some((words, expected)) = row.split_once(" ~ ") else {
        return false;
    };
    match expr_of(alloc, words) {
        Some(expr) => gives(alloc, &expr, named, messages, expected),
        None => false,
    }
}

// The first row that doesn't hold; empty where each does.
fn first_wrong(alloc: Global, named: &[Expr], messages: &[Message]) -> &'static str {
    if messages.len() != 8 || named.len() != 3 {
        return "another number of messages or of names";
    }
    for row in ROWS.lines() {
        if !holds(alloc, row, named, messages) {
            return row;
        }
    }
    ""
}

fn wrong_with(alloc: Global, named: &[Expr]) -> Result<&'static str, Fail> {
    let messages = messages(alloc)?;
    Ok(first_wrong(alloc, named, &messages))
}

fn wrong_row(alloc: Global) -> Result<&'static str, Fail> {
    let named = named(alloc)?;
    wrong_with(alloc, &named)
}

#[test]
fn rows(rt: HostRuntime) -> Result<(), Fail> {
    assert_eq!(rt; wrong_row(rt.alloc())?, "");
    Ok(())
}

fn denied(alloc: Global, place: u32) -> Result<Expr, AllocError> {
    Ok(Expr::Not(Boxed::new(alloc, Expr::Named(place))?))
}

fn push_denied(alloc: Global, named: &mut Vec<Expr>, place: u32) -> Result<(), AllocError> {
    named.push(denied(alloc, place)?)?;
    Ok(())
}

fn any_level(alloc: Global) -> Result<Vec<Expr>, Fail> {
    let mut named = Vec::new(alloc);
    let Some(level) = level_of(alloc, "0-7") else {
        return Err(Fail::new("no level"));
    };
    named.push(level)?;
    Ok(named)
}

// Names of which each is the one before it, denied. The first holds of every message.
fn chain(alloc: Global, count: u32) -> Result<Vec<Expr>, Fail> {
    let mut named = any_level(alloc)?;
    for place in 1..count {
        push_denied(alloc, &mut named, place - 1)?;
    }
    Ok(named)
}

// Whether the last names hold of every message and of none.
fn ends_so(alloc: Global, named: &[Expr], messages: &[Message]) -> bool {
    gives(alloc, &Expr::Named(20_000), named, messages, "11111111")
        && gives(alloc, &Expr::Named(19_999), named, messages, "00000000")
}

fn ends_with(alloc: Global, named: &[Expr]) -> Result<bool, Fail> {
    let messages = messages(alloc)?;
    Ok(ends_so(alloc, named, &messages))
}

fn long_chain_ends(alloc: Global) -> Result<bool, Fail> {
    let named = chain(alloc, 20_001)?;
    ends_with(alloc, &named)
}

#[test]
fn deep_names(rt: HostRuntime) -> Result<(), Fail> {
    assert!(rt; long_chain_ends(rt.alloc())?);
    Ok(())
}
