// Rewrites over messages.
use crate::messages::{message_at, written};
use crate::ops::{has_these, rewrite_of};
use crate::text::bytes_of;
use sg_msg::Message;
use sg_rewrite::Rewrite;
use std::alloc::{AllocError, Global};

// Each character of this text is the byte of that number.
// A message's place, the rewrite, its name or globs, its pattern and its template, and the pairs and tags that come
// of it. A kind of patterns stands for `subst`, with the flags: i ignore-case, p prefix, s substring, g global, - none.
const ROWS: &str = "\
0 set ~ MESSAGE ~  ~ $PROGRAM[${PID}]: $MSG ~ HOST=web1;MESSAGE=sshd[42]: Failed for root from 10.0.0.1;PID=42;PROGRAM=sshd
0 set ~ HOST ~  ~ $FACILITY.$LEVEL ~ HOST=auth.info;MESSAGE=Failed for root from 10.0.0.1;PID=42;PROGRAM=sshd
4 set ~ new ~  ~ $MSG$_- ~ new=-
4 set ~ new ~  ~ ${MESSAGE:-none} ~ new=none
4 set ~ new ~  ~ $STAMP ~ new=Jan  1 01:00:01
4 set ~ new ~  ~ $R_ISODATE ~ new=1970-01-01T00:00:02+00:00
1 set ~ ab ~  ~ ${b}${a} ~ a=1;ab=31;b=3
1 set ~ aa ~  ~  ~ a=1;aa=;ab=2;b=3
5 set ~ t ~  ~ $TAGS ~ MESSAGE=x;t=red,blue;#red;#blue
1 unset ~ ab ~  ~  ~ a=1;b=3
4 unset ~ ab ~  ~  ~ 
2 regex g ~ MESSAGE ~ x* ~ - ~ MESSAGE=-a-b-c-
2 regex - ~ MESSAGE ~ x* ~ - ~ MESSAGE=-abc
0 regex - ~ MESSAGE ~ [0-9]+ ~ N ~ HOST=web1;MESSAGE=Failed for root from N.0.0.1;PID=42;PROGRAM=sshd
0 regex g ~ MESSAGE ~ [0-9]+ ~ N ~ HOST=web1;MESSAGE=Failed for root from N.N.N.N;PID=42;PROGRAM=sshd
0 regex i ~ MESSAGE ~ FAILED|ROOT ~ $PID ~ HOST=web1;MESSAGE=42 for root from 10.0.0.1;PID=42;PROGRAM=sshd
0 regex - ~ MESSAGE ~ FAILED ~ $PID ~ HOST=web1;MESSAGE=Failed for root from 10.0.0.1;PID=42;PROGRAM=sshd
7 regex ig ~ k ~ ab ~ <$k> ~ MESSAGE=;k=<AbAB aB><AbAB aB> <AbAB aB>
7 regex - ~ MESSAGE ~ ^$ ~ none ~ MESSAGE=none;k=AbAB aB
3 regex g ~ MESSAGE ~ (?-u:\\xff) ~ F ~ MESSAGE=Fa\u{fe}F
4 regex g ~ MESSAGE ~ x* ~ - ~ 
2 text - ~ MESSAGE ~ abc ~ X ~ MESSAGE=X
2 text g ~ MESSAGE ~ ab ~ X ~ MESSAGE=abc
2 text i ~ MESSAGE ~ ABC ~ X ~ MESSAGE=X
7 text p ~ k ~ Ab ~ - ~ MESSAGE=;k=-AB aB
7 text ipg ~ k ~ aB ~ - ~ MESSAGE=;k=-AB aB
7 text s ~ k ~ AB ~ - ~ MESSAGE=;k=Ab- aB
7 text sg ~ k ~ A ~ - ~ MESSAGE=;k=-b-B aB
7 text isg ~ k ~ ab ~ - ~ MESSAGE=;k=-- -
3 text sg ~ MESSAGE ~ \u{ff} ~  ~ MESSAGE=a\u{fe}
7 glob - ~ k ~ Ab*B ~ ($k) ~ MESSAGE=;k=(AbAB aB)
2 glob g ~ MESSAGE ~ ?b ~ X ~ MESSAGE=abc
1 groupset ~ a* ~  ~ $_! ~ a=1!;ab=2!;b=3
1 groupset ~ b,a ~  ~ ${a}${b} ~ a=13;ab=2;b=133
0 groupset ~ PRI,P*,_ ~  ~ ${PID}.$_ ~ HOST=web1;MESSAGE=Failed for root from 10.0.0.1;PID=42.42;PROGRAM=42.42.sshd
6 groupset ~ .SDATA.id* ~  ~ <$_>$MSG ~ .SDATA.id@1.event=<7>m;.SDATA.id@1.user=<Ann>m;.SDATA.z@1.q=;MESSAGE=m
7 groupset ~ M*,none ~  ~ ${_:-none} ~ MESSAGE=none;k=AbAB aB
4 groupset ~ * ~  ~ X ~ 
1 groupunset ~ a* ~  ~  ~ b=3
6 groupunset ~ .SDATA.* ~  ~  ~ MESSAGE=m
0 groupunset ~ *O*,PID ~  ~  ~ MESSAGE=Failed for root from 10.0.0.1
1 groupunset ~ a?? ~  ~  ~ a=1;ab=2;b=3
5 set-tag ~ green ~  ~  ~ MESSAGE=x;#red;#blue;#green
5 set-tag ~ red ~  ~  ~ MESSAGE=x;#red;#blue
4 set-tag ~ $MSG ~  ~  ~ #$MSG
5 clear-tag ~ red ~  ~  ~ MESSAGE=x;#blue
5 clear-tag ~ green ~  ~  ~ MESSAGE=x;#red;#blue
";

// A row's parts.
#[derive(Drop)]
struct RewriteRow<'r> {
    place: &'r str,
    words: &'r str,
    name: &'r str,
    pattern: &'r str,
    text: &'r str,
    expected: &'r str,
}

fn row_of(line: &str) -> Option<RewriteRow<'_>> {
    let Some((head, rest)) = line.split_once(" ~ ") else {
        return None;
    };
    let (Some((place, words)), Some((name, rest))) = (head.split_once(' '), rest.split_once(" ~ "))
    else {
        return None;
    };
    let Some((pattern, rest)) = rest.split_once(" ~ ") else {
        return None;
    };
    let Some((text, expected)) = rest.split_once(" ~ ") else {
        return None;
    };
    Some(RewriteRow {
        place,
        words,
        name,
        pattern,
        text,
        expected,
    })
}

// Whether the rewrite makes this of the message.
fn makes(
    alloc: Global,
    rewrite: &mut Rewrite,
    message: &mut Message,
    expected: &[u8],
) -> Result<bool, AllocError> {
    rewrite.apply(alloc, message)?;
    Ok(written(alloc, message)?.as_slice() == expected)
}

// Whether it makes this of another handle of the message.
fn makes_other(
    alloc: Global,
    rewrite: &mut Rewrite,
    message: &Message,
    expected: &[u8],
) -> Result<bool, AllocError> {
    let mut other = message.share()?;
    makes(alloc, rewrite, &mut other, expected)
}

// Whether an equal rewrite makes this of it.
fn shared_makes(
    alloc: Global,
    rewrite: &Rewrite,
    message: &Message,
    expected: &[u8],
) -> Result<bool, AllocError> {
    let mut other = rewrite.share(alloc)?;
    makes_other(alloc, &mut other, message, expected)
}

// Whether both do.
fn both_make(
    alloc: Global,
    rewrite: &mut Rewrite,
    message: &Message,
    expected: &[u8],
) -> Result<bool, AllocError> {
    let first = makes_other(alloc, rewrite, message, expected)?;
    let second = shared_makes(alloc, rewrite, message, expected)?;
    Ok(first && second)
}

// Whether the message says this.
fn says(alloc: Global, message: &Message, text: &[u8]) -> Result<bool, AllocError> {
    Ok(written(alloc, message)?.as_slice() == text)
}

// Whether both do, and the message says what it said before.
fn gives(
    alloc: Global,
    rewrite: &mut Rewrite,
    message: &Message,
    expected: &[u8],
) -> Result<bool, AllocError> {
    let before = written(alloc, message)?;
    let made = both_make(alloc, rewrite, message, expected)?;
    Ok(made && says(alloc, message, &before)?)
}

fn gives_text(alloc: Global, rewrite: &mut Rewrite, message: &Message, expected: &str) -> bool {
    match bytes_of(alloc, expected) {
        Ok(expected) => matches!(gives(alloc, rewrite, message, &expected), Ok(true)),
        Err(_) => false,
    }
}

// The rewrite of a row, if its words are understood and nothing else stands there.
fn rewrite_by(alloc: Global, row: &RewriteRow) -> Option<Rewrite> {
    if has_these(row.words, row.pattern, row.text) {
        return rewrite_of(alloc, row.words, row.name, row.pattern, row.text);
    }
    None
}

// Whether this rewrite gives what the row says.
fn gives_row(alloc: Global, rewrite: &mut Rewrite, row: &RewriteRow) -> bool {
    let made = message_at(alloc, row.place);
    match &made {
        Some(message) => gives_text(alloc, rewrite, message, row.expected),
        None => false,
    }
}

// Whether a row holds, and whether it was understood.
fn holds(alloc: Global, line: &str) -> bool {
    let Some(row) = row_of(line) else {
        return false;
    };
    let mut made = rewrite_by(alloc, &row);
    match &mut made {
        Some(rewrite) => gives_row(alloc, rewrite, &row),
        None => false,
    }
}

#[test]
fn rows(rt: HostRuntime) {
    for row in ROWS.lines() {
        assert!(rt; holds(rt.alloc(), row), "{row}");
    }
}
