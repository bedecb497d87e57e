// Texts with their tokens, by the guide's rules for words, strings and comments. A row has a text, in
// which `~` ends a line, and its tokens, each by its kind, file, line, column and text, or what is wrong
// with it. Bytes of a token that can't be printed stand as decimal numbers in `<` and `>`.

use sg_device::NoMemory;
use sg_lex::{LexFault, TEXT_LIMIT, Token, line_at, tokens};
use std::alloc::{AllocError, Global};
use std::test::Fail;

const TEXTS: &str = r#"# nothing =>
@version: 4.2~ => At@7:1:1=version Sym@7:1:9=: Word@7:1:11=4.2
s{file("in");};# a "~`A-1` => Word@7:1:1=s Sym@7:1:2={ Word@7:1:3=file Sym@7:1:7=( Str@7:1:8=in Sym@7:1:12=) Sym@7:1:13=; Sym@7:1:14=} Sym@7:1:15=; Tick@7:2:1=A-1
err..emerg => Word@7:1:1=err Sym@7:1:4=.. Word@7:1:6=emerg
10.0.0.1,.a. => Word@7:1:1=10.0.0.1 Sym@7:1:9=, Word@7:1:10=.a.
a <= b<"\"" => Word@7:1:1=a Op@7:1:3=<= Word@7:1:6=b Op@7:1:7=< Str@7:1:8="
"\n\r\t\a\v\\\q" => Str@7:1:1=<10><13><9><7><11>\q
"\x41\x4g\xg\x0a~"'\n' => Str@7:1:1=A<4>gxg<10><10> Str@7:2:2=\n
!=== => Op@7:1:1=!= Op@7:1:3===
a 'b => OpenString(2)
"a\" => OpenString(0)
a...b => BadByte(3)
@ a => BadByte(0)
`` => BadByte(0)
a `b c` => BadByte(2)
a = b => BadByte(2)
ä " => BadByte(0)
"#;

fn push_byte(shown: &mut Vec<u8>, alloc: Global, byte: u8) -> Result<(), NoMemory> {
    if (32..127).contains(&byte) {
        shown.push(byte)?;
    } else {
        shown.extend_from_slice(format!(in alloc; "<{byte}>")?.as_bytes())?;
    }
    Ok(())
}

/// A token behind a space.
fn push_token(shown: &mut Vec<u8>, alloc: Global, token: &Token) -> Result<(), NoMemory> {
    let place = format!(in alloc;
        " {:?}@{}:{}:{}=",
        token.kind, token.file, token.line, token.column
    )?;
    shown.extend_from_slice(place.as_bytes())?;
    for byte in token.text.bytes() {
        push_byte(shown, alloc, *byte)?;
    }
    Ok(())
}

fn told(alloc: Global, list: &[Token]) -> Result<Vec<u8>, NoMemory> {
    let mut shown = Vec::new(alloc);
    for token in list {
        push_token(&mut shown, alloc, token)?;
    }
    Ok(shown)
}

/// The tokens of a text of file 7, or what is wrong with it.
fn answer(alloc: Global, text: &[u8]) -> Result<Vec<u8>, NoMemory> {
    if text.len() > TEXT_LIMIT {
        return Ok(Vec::new(alloc));
    }
    match tokens(alloc, 7, text) {
        Ok(list) => told(alloc, &list),
        Err(LexFault::NoMemory) => Err(AllocError),
        Err(fault) => Ok(format!(in alloc; " {fault:?}")?.into_bytes()),
    }
}

/// Whether a row's text has the tokens that stand there.
fn holds(alloc: Global, row: &str) -> Result<bool, NoMemory> {
    let Some((written, want)) = row.split_once(" =>") else {
        return Ok(false);
    };
    let text = written.replace(alloc, "~", "\n")?;
    Ok(answer(alloc, text.as_bytes())?.as_slice() == want.as_bytes())
}

#[test]
fn texts_have_their_tokens(rt: HostRuntime) -> Result<(), Fail> {
    for row in TEXTS.lines() {
        assert!(rt; holds(rt.alloc(), row)?, "{row}");
    }
    assert_eq!(rt; line_at(b"a\nb\n\nc", 4), 3);
    Ok(())
}
