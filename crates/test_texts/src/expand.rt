// Expansions of whole configurations, by the guide's rules for directives, blocks and variables. A row
// has a configuration, in which `~` ends a line and `^` is a thousand variables, and what it is expanded
// to: its tokens, or what is wrong with it, with the file's number and name and the line.

use crate::expand_texts::{
    MOST_ROOM, head_of, made_text, push_includes, push_text, text_behind, text_with_room,
};
use sg_device::{FileRefusal, Name, NoMemory};
use sg_expand::{ExpandRefusal, Expanded, expand};
use sg_lex::{ConfigFault, Token, TokenKind};
use sg_list::Seq;
use sg_outside::{Files, Machine};
use std::alloc::{AllocError, Global};
use std::test::Fail;

/// Files in memory.
#[derive(Drop)]
struct TextFiles {
    /// How many readings failed.
    faults: u64,
    /// The file that wasn't read the last time.
    unread: Option<Name>,
}

impl Machine for TextFiles {
    ghost use Rattle.std.specs.Prelude.{None, []};

    ghost state = { λ texts. record {
      files = None;
      unread = texts.unread;
      inlets = record { opened = []; closed = [] };
      outlets = record { opened = []; closed = [] };
      stores = record { opened = []; closed = [] };
      paths = record { opened = []; closed = [] };
      store_names = None;
      said = None;
      read_faults = texts.faults;
      inlet_faults = 0;
      outlet_faults = 0;
      store_faults = 0;
      paths_faults = 0;
      say_faults = 0;
      build_faults = 0;
    } };
}

impl Files for TextFiles {
    fn read(&mut self, alloc: Global, name: &[u8]) -> Result<Vec<u8>, FileRefusal> {
        if name == b"long".as_slice() {
            return Err(FileRefusal::TooLong);
        }
        let Some(row) = row_of(name) else {
            self.unread = Some(Name::new(alloc, name)?);
            self.faults = self.faults.saturating_add(1);
            return Err(FileRefusal::Failed);
        };
        let text = file_of(alloc, row)?;
        if text.len() > 1_048_576 {
            return Err(FileRefusal::TooLong);
        }
        Ok(text)
    }
}

/// What stands behind a file's name, where there is such a file.
fn row_of(name: &[u8]) -> Option<&'static str> {
    if name == b"e".as_slice() || name == b"ab".as_slice() || name == b"h14".as_slice() {
        return Some("");
    }
    for row in FILES.lines() {
        if let Some((known, text)) = row.split_once(" => ") {
            if known.as_bytes() == name {
                return Some(text);
            }
        }
    }
    None
}

/// A file's text, or where a name stands behind `*`, a hundred lines that include the file of that name.
fn file_of(alloc: Global, row: &str) -> Result<Vec<u8>, NoMemory> {
    let mut text = Vec::new(alloc);
    match row.strip_prefix("*") {
        Some(next) => push_includes(&mut text, next)?,
        None => push_text(&mut text, row)?,
    }
    Ok(text)
}

/// Included files by name. `e`, `ab` and `h14` are empty, `long` is too long, and no other can be read.
const FILES: &str = r#"h13 => *h14
h12 => *h13
h11 => *h12
h10 => *h11
h09 => *h10
h08 => *h09
h07 => *h08
h06 => *h07
h05 => *h06
h04 => *h05
h03 => *h04
h02 => *h03
h01 => *h02
d01 => @include "d02"
d02 => @include "d03"
d03 => @include "d04"
d04 => @include "d05"
d05 => @include "d06"
d06 => @include "d07"
d07 => @include "d08"
d08 => @include "d09"
d09 => @include "d10"
d10 => @include "d11"
d11 => @include "d12"
d12 => @include "d13"
d13 => @include "d14"
d14 => @include "d15"
d15 => @include "d16"
d16 => deep(); block root deep() {@include "out.conf"};
c => @version: 4.2 ~@include "c"
out.conf => file("out")
é.conf => file("out")
later.conf => @version: 4.7 @version: current y
old.conf => ~@version: 3.2
bad => x~`NO` "
worse => x~`NO` =
tick => `k`
use => b();
semi => s;
sets => @define V 1 block root b() {y};
"#;

/// The first token, and later versions.
const VERSIONS: &str = r#" => Version 0 c:1
~# c => Version 0 c:1
~~x => Version 0 c:3
# c~@version: 4.2~a => a
@version~:~4.10 a => a
@version: 3.38 => Version 0 c:1
@version: 4 => Version 0 c:1
@version: 4. => Version 0 c:1
@version: 4.2.1 => Version 0 c:1
@version: 4.2a => Version 0 c:1
@version: 14.2 => Version 0 c:1
@version: current => Version 0 c:1
@version: "4.2" => Version 0 c:1
@version 4.2 => Version 0 c:1
version: 4.2 => Version 0 c:1
@define V 1~@version: 4.2 => Version 0 c:1
@version: 4.2~@version: 4.99 @version: current a => a
@version: 4.2~@version~: 5.1 => Version 0 c:2
@version: 4.2~@version: 4.2.1 => Version 0 c:2
@version: 4.2 @version x @version: "y" => @version x @version : "y"
@version: 4.2 @include "later.conf" => y
@version: 4.2 @include "old.conf" => Version 1 old.conf:2
@version: 4.2 block root a() {x~@version: 5.0}; a() => Version 0 c:2
x~" => OpenString 0 c:2
x~= => BadByte 0 c:2
@version: 4.2~" => OpenString 0 c:2
@version: 4.2 `NO`~$ => BadByte 0 c:2
"#;

/// Variables, directives without effect, and those that lack their parts.
const DIRECTIVES: &str = r#"@define V x `V` @define V y `V` => x y
@define S "a b" `S` "`S`" => "a b" "a b"
@define A 1 @define B "`A`" @define A 2 `B` => "1"
@define a 1 @define A 2 `a` `A` => 1 2
@define a-b 1 @define a_b 2 `a-b` => 1
@define E "" "a`E`b" `E` => "ab" ""
{@define V x} `V` => { } x
block root a() {@define V 1}; a(); `V` => ; 1
@define "N" v @define N ; @define => @define "N" v @define N ; @define
@define V v @define N `V` => @define N v
@define @define x y `x` => @define y
@define V~"~`NO`" => UnknownVariable 0 c:2
@module x @requires y @module json-plugin =>
@module "x" @requires => @module "x" @requires
@other x @Define a b @module: y => @other x @Define a b @module : y
@include out.conf => @include out.conf
@define V x @include `V` => @include x
level(err..emerg) 1 .. 2 => level ( err .. emerg ) 1 .. 2
"#;

/// Included files.
const INCLUDES: &str = r#"d {@include "out.conf"; } => d { file ( "out" ) ; }
@include 'out.conf' => file ( "out" )
@define F out @include "`F`.conf" => file ( "out" )
@include "e" @include "out.conf" x => file ( "out" ) x
@include "sets" `V` {b()} => 1 { y }
@include "x*.conf" => Unsupported 0 c:1
~@include~"a?" => Unsupported 0 c:2
@define W "*" @include "`W`" => Unsupported 0 c:1
@include~"`NO`" => UnknownVariable 0 c:2
@include "`NO`*" => UnknownVariable 0 c:1
@include "broken" => broken not read 1
@define V "*" @include "`V`broken" => Unsupported 0 c:1
@include "é.conf" => file ( "out" )
@include "\xc3\xa9.conf" => file ( "out" )
~@include~"\xff" => Unsupported 0 c:2
@include "broken\xe9" => Unsupported 0 c:1
@define F "\xe9" @include "`F`.conf" => Unsupported 0 c:1
@include "\xc0\xafe" => Unsupported 0 c:1
@include "e\xc3" => Unsupported 0 c:1
@include "e\xed\xa0\x80" => Unsupported 0 c:1
@include "e\xf4\x90\x80\x80" => Unsupported 0 c:1
@include "\xff`NO`" => UnknownVariable 0 c:1
~x @include~"long" => TooLong 0 c:2
@include "bad" => OpenString 1 bad:2
@include "worse" `NO` => BadByte 1 worse:2
~`NO`~@include "bad" => UnknownVariable 0 c:2
@include "e" @include "e" @include "bad" => OpenString 3 bad:2
@include "d02" => deep ( ) ;
@include "d01" => IncludeDepth 15 d15:1
block root deep() {x}; @include "d02" => x ;
block root deep() {~@include "out.conf"}; @include "d02" => IncludeDepth 0 c:2
block root deep() {@include "`NO`"}; @include "d02" => IncludeDepth 0 c:1
{@include "d02"}~deep(); => { deep ( ) ; } file ( "out" ) ;
~@include "c" => IncludeDepth 15 c:2
block root a(k(1)) {@include "tick"}; a() => UnknownVariable 1 tick:1
@define k 7 block root a(k(1)) {@include "tick" `k`}; a() => 7 1
block root a(f()) {@include "`f`.conf"}; a(f(out)) => file ( "out" )
block root a() {@include "use"}; block root b() {x}; a() => x ;
block root b() {~@include "use"}; b() => IncludeDepth 0 c:2
"#;

/// Definitions of blocks.
const BLOCKS: &str = r#"block root a() {1}; block source b() {2}; a(); b(); => 1 ; 2 ;
block destination a() {1}; block filter b() {2}; a(); b(); => 1 ; 2 ;
block rewrite a() {1}; block log b() {2}; a(); b(); => 1 ; 2 ;
block parser a() {1}; block options b() {2}; a(); b(); => 1 ; 2 ;
block template a() {}; => block template a ( ) { } ;
block "root" a() {}; => block "root" a ( ) { } ;
x block root a() {y}; a(); => x y ;
block root "a" () {x}; a(); => x ;
block root 'a-1.b' () {x}; a-1.b(); => x ;
block root a-b() {x}; a_b(); A-b(); a-b(); => a_b ( ) ; A-b ( ) ; x ;
block root a() {x} a(); => block root a ( ) { x } a ( ) ;
block root a() {x}, a(); => block root a ( ) { x } , a ( ) ;
block root a() x; => block root a ( ) x ;
block root a {x}; => block root a { x } ;
block root () {x}; => block root ( ) { x } ;
block root a(k) {x}; => block root a ( k ) { x } ;
block root a("k"()) {x}; => block root a ( "k" ( ) ) { x } ;
block root a(,k(1)) {x}; => block root a ( , k ( 1 ) ) { x } ;
block root a(k(1),) {x}; => block root a ( k ( 1 ) , ) { x } ;
block root a(k({)}) {x}; => block root a ( k ( { ) } ) { x } ;
block root a() {(}; => block root a ( ) { ( } ;
block root a() {x)}; => block root a ( ) { x ) } ;
block root a(k(1) l(2), m(3) ,, n((4) {5})) {`k` `l` `m` `n`}; a() => 1 2 3 ( 4 ) { 5 }
block root a(k(1) k(2)) {`k`}; a() => 2
block root a(k() k(1)) {`k`}; a() => 1
block root a(k(1) k()) {};~a() => MissingArgument 0 c:2
block root a() {`NO`}; x => x
block root a() {`V`}; @define V 1 a(); @define V 2 a(); => 1 ; 2 ;
block root a() {x}; a(); block root a() {y}; a(); => x ; y ;
block root a(k()) {x}; block root a() {y}; a(); => y ;
block root a() {x}; block root b() {a()}; block root a() {y}; b(); a(); => a ( ) ; y ;
block root a() {block root c() {z};;}; a(); c(); => ; z ;
block root a() {block root c() {z};}; a(); => block root c ( ) { z } ;
block root a(k()) {x}; a(k(block root c() {z};)); c(); => x ; z ;
"#;

/// Uses of blocks.
const USES: &str = r#"block root a() {x}; a() {a()} a() y a(); a() => x { x } x y a ( ) ; x
block root a() {x}; (a()), a() :a() => ( a ( ) ) , a ( ) : a ( )
block root a() {x}; "a"(); a a {} a => "a" ( ) ; a a { } a
block root a() {x}; a()a() => x a ( )
block root a() {x}; @define N a ;`N`() => ; a ( )
block root a() {x}; a(1); a(k); a("k"()); a(k() 1); => a ( 1 ) ; a ( k ) ; a ( "k" ( ) ) ; a ( k ( ) 1 ) ;
block root a() {x}; a(,); a(k(),); a({)}); a(k(); => a ( , ) ; a ( k ( ) , ) ; a ( { ) } ) ; a ( k ( ) ;
block root a() {x}; @include "semi" a(); => s ; x ;
block root a() {x}; y @include "semi" a(); => y s ; a ( ) ;
block root a() {x}; y @module z a(); @define z 1 a(); => y a ( ) ; x ;
block root a() {x}; @version: current a(); => x ;
block root a() {x}; block root s() {s;;}; s() a(); => s ; a ( ) ;
block root a() {x}; block root b(k()) {`k` a()}; b(k(y;)) => y ; a ( )
block root b() {x}; y @include "use" z => y x ; z
block root a() {x}; block root b() {a(); y a() {a()}}; b() => x ; y a ( ) { x }
block root a() {x;;}; a(); => x ; ;
block root a() {;}; block root b() {}; a() y; b() z => y ; z
block root a() {b()}; block root b() {x}; a(); b(); => b ( ) ; x ;
block root a() {a()}; a(); => a ( ) ;
block root a() {x}; block root b() {a(); a()}; block root c() {b(); b()}; c() => x ; x ; x ; x
block root a(k()) {x `k` "`k`"}; a(k()); a(k(1 "2" ;)); => x "" ; x 1 "2" ; "1 2 ;" ;
block root a(k(1)) {`k`}; a(k(2) , , k(3)); a(); a(k((4) {5;} k(6))); => 3 ; 1 ; ( 4 ) { 5 ; } k ( 6 ) ;
block root a(k()) {};~~a(l(`NO`)); => MissingArgument 0 c:3
block root a(k()) {};~a(k() l(`NO`)); => UnknownArgument 0 c:2
block root a(k()) {};~a(k(~`NO`)); => UnknownVariable 0 c:3
block root a(k-l()) {};~a(k_l()); => MissingArgument 0 c:2
block root a(k-l(1)) {};~a(k_l()); => UnknownArgument 0 c:2
block root a(k() l()) {};~a(l(~`NO`) k(~`NO`)); => UnknownVariable 0 c:3
block root a(k() l(~`NO`)) {};~a(k(~`NO`)); => UnknownVariable 0 c:4
block root a(k(~`NO`) l(~`NO`)) {};~a(); => UnknownVariable 0 c:2
block root a(k(~`NO`) l(~`NO`)) {};~a(k()); => UnknownVariable 0 c:3
block root a(k() l()) {}; a(k() l(~`NO`) k(~`NO`)); => UnknownVariable 0 c:2
block root a(k(`V`)) {`k`}; block root b(V(1)) {a()}; @define V 2 b(); a(); => 1 ; 2 ;
block root a(p(1) q(`p`)) {`q`};~a(); => UnknownVariable 0 c:1
@define p 9 block root a(p(1) q(`p`)) {`q`}; a(); => 9 ;
block root a(p(1)) {`p`}; block root b(q(2)) {a(p(`q`))}; b() => 2
block root a() {`q`}; block root b(q(2)) {a()}; b() => UnknownVariable 0 c:1
@define N 1 block root a(N(2)) { {`N` @define N 3 `N`} }; a(); `N` => { 2 2 } ; 3
block root b() {x}; block root a(k()) { {`k`} }; a(k(b() {b()})) => { b ( ) { x } }
block root a(k({b()})) {`k`}; block root b() {x}; a() => { x }
block root a(k()) {`k`}; block root c() {a(k({b()}))}; block root b() {x}; c() => { b ( ) }
"#;

/// Variables in strings.
const STRINGS: &str =
    r#"@define N v "\x60N\x60" "\`N\`" '`N`' '\x60N\x60' => "v" "v" "v" "\x60N\x60"
@define N 1 "`N`N`" "``N`" "`N" "`" "` `" "``" "`N N`" => "1N`" "`1" "`N" "`" "` `" "``" "`N N`"
@define N 1 @define B "`" "`B`N`B`" @define C "`B`N`B`" `C` "`C`" => "`N`" "`N`" "`N`"
@define N 1 @define N "`N``N`" `N` => "11"
@define N 1 @x `N` "@`N`" `N`..`N` => @x 1 "@1" 1 .. 1
@define O out~d {file("`O`-`O`") `O`} => d { file ( "out-out" ) out }
@define a.b 1 "`a.b`" => "`a.b`"
block root l(p()) {"`p`"}; l(p("in" a, 'b c' ;)) => "in a , b c ;"
"`a`N`" => UnknownVariable 0 c:1
~x "~`NO`" => UnknownVariable 0 c:2
~"a" `NO` => UnknownVariable 0 c:2
"#;

/// Whole configurations.
const WHOLE: &str =
    r#"~@define OUT out~source s { file("in" flags(no-parse)); }; # in~destination d { file("`OUT`" template("$MSG\n")); };~log { source(s); destination(d); flags(flow-control); }; => source s { file ( "in" flags ( no-parse ) ) ; } ; destination d { file ( "out" template ( "$MSG~" ) ) ; } ; log { source ( s ) ; destination ( d ) ; flags ( flow-control ) ; } ;
~block source local(path()) { file("`path`" flags(no-parse)); };~source s { local(path("in")); };~destination d { file("out"); }; => source s { file ( "in" flags ( no-parse ) ) ; } ; destination d { file ( "out" ) ; } ;
~block source local(path()) { file("`path`" flags(no-parse)); };~source s { local(); }; => MissingArgument 0 c:3
~log { `NO`; }; => UnknownVariable 0 c:2
~@include "conf.d/*.conf" => Unsupported 0 c:2
"#;

/// What the running total counts, behind the room that is left for it. The text begins on line 2.
const TOTALS: &str = r#"4: abc => abc
5: abc => abc
3: abc => TooLong 0 c:2
4: a b => a b
3: a~b => TooLong 0 c:3
3: "\x41b" => "Ab"
2: "\x41b" => TooLong 0 c:2
5: @xy ; => @xy ;
4: @xy~; => TooLong 0 c:3
3: .. => ..
2: .. => TooLong 0 c:2
6: @define W vw `W` => vw
5: @define W vw~`W` => TooLong 0 c:2
7: @define W vw `W` => vw
8: @define W vw "`W``W`" => "vwvw"
7: @define W vw~"`W``W`" => TooLong 0 c:3
4: @define W abc =>
5: @define W abc =>
3: ~@define W~abc => TooLong 0 c:3
9: @define W abc @define X "`W`x" =>
8: @define W abc~@define X "`W`x" => TooLong 0 c:3
0: @define W~"`NO`" => UnknownVariable 0 c:3
0: @module x @requires y @version: 4.3 block root a() {x y z}; =>
12: block root a() {b c;}; a() => b c
11: block root a() {b~c;}; a() => TooLong 0 c:3
8: block root a() {b c;};~a() => TooLong 0 c:2
7: block root a() {b c;};~a() => TooLong 0 c:3
4: block root abc() {}; abc() =>
3: block root abc() {};~abc() => TooLong 0 c:3
12: block root a() {@module x}; a() =>
11: block root a() {@module x}; a() =>
10: block root a() {@module x};~a() => TooLong 0 c:3
9: block root a(k()) {}; a(k()) =>
8: block root a(k()) {}; a(k()) =>
7: block root a(k()) {};~a(k()) => TooLong 0 c:3
17: block root a(k(@module x)) {}; a() =>
16: block root a(k(@module x)) {};~a() => TooLong 0 c:3
11: block root a(k(bc)) {}; a(k(@module x)) =>
10: block root a(k(bc)) {};~a(k(@module x)) => TooLong 0 c:3
12: block root a(k()) {}; a(k(bc)) =>
11: block root a(k()) {}; a(k(bc)) =>
10: block root a(k()) {};~a(k(~bc)) => TooLong 0 c:4
8: block root a(k()) {};~a(k(~bc)) => TooLong 0 c:4
7: block root a(k()) {};~a(k(~bc)) => TooLong 0 c:3
14: block root a(k(bc)) {}; a() =>
13: block root a(~k(bc)) {};~a() => TooLong 0 c:3
11: block root a(~k(bc)) {};~a() => TooLong 0 c:3
10: block root a(~k(bc)) {};~a() => TooLong 0 c:4
10: block root a(k()) {}; a(k(bcd) k(e)) =>
9: block root a(k()) {};~a(k(bcd)~k(e)) => TooLong 0 c:4
16: block root a(k()) {`k`}; a(k(bc)) => bc
15: block root a(k()) {`k`};~a(k(~bc)) => TooLong 0 c:4
12: block root a(k()) {`k`};~a(k(~bc)) => TooLong 0 c:4
16: @define W vw block root a(k()) {}; a(k("`W``W`")) =>
15: @define W vw block root a(k()) {};~a(k(~"`W``W`")) => TooLong 0 c:4
17: @define W vw block root a(k()) {}; a(k("" `W` 1)) =>
14: ~@define W vw block root a(k()) {};~a(k("" `W`)) => TooLong 0 c:3
11: block root a(k()) {}; a(k(@define W bc)) =>
10: block root a(k()) {};~a(k(~@define W bc)) => TooLong 0 c:4
36: block root a(k()) {}; block root b(x()) {a(k(`x`))}; b(x(cd)) =>
35: block root a(k()) {}; block root b(x()) {~a(k(`x`))};~b(x(~cd)) => TooLong 0 c:5
32: block root a(k()) {}; block root b(x()) {~a(k(`x`))};~b(x(~cd)) => TooLong 0 c:3
24: block root a(k()) {}; block root b(x()) {~a(k(`x`))};~b(x(~cd)) => TooLong 0 c:5
21: block root a(k()) {}; block root b(x()) {~a(k(`x`))};~b(x(~cd)) => TooLong 0 c:4
11: block root a(k()) {};~a(k(bc~`NO`)) => UnknownVariable 0 c:4
10: block root a(k()) {};~a(k(bc~`NO`)) => TooLong 0 c:3
0: block root a(k()) {};~a() => MissingArgument 0 c:3
3: @include "e" =>
2: ~@include~"e" => TooLong 0 c:3
1: ~@include~"e" => TooLong 0 c:3
35: @include "out.conf" => file ( "out" )
34: @include "out.conf" => file ( "out" )
33: @include "out.conf" => TooLong 1 out.conf:1
21: @include "out.conf" => TooLong 1 out.conf:1
20: @include "out.conf" => TooLong 0 c:2
7: @define W ab @include "`W`" =>
6: @define W ab~@include "`W`" => TooLong 0 c:3
5: @define W ab~@include "`W`" => TooLong 0 c:3
0: ~@include~"`NO`" => UnknownVariable 0 c:4
4: @include "a*b" => Unsupported 0 c:2
3: @include "a*b" => TooLong 0 c:2
4: @include "a\xffb" => Unsupported 0 c:2
3: @include "a\xffb" => TooLong 0 c:2
7: @include "broken" => broken not read 1
6: @include "broken" => TooLong 0 c:2
5: @include "long" => TooLong 0 c:2
13: @include "bad" => OpenString 1 bad:2
12: @include "bad" => TooLong 0 c:2
"#;

/// Values over the limit, behind a variable of 999 bytes. The text begins on line 2.
const LONG: &str = r#"block root a(k()) {};~a(k(~^)) => TooLong 0 c:1
block root a(k()) {};~a(k(^~`NO`)) => TooLong 0 c:1
block root a(k()) {};~a(k(~"^")) => TooLong 0 c:4
block root a(k()) {};~a(k("^`NO`")) => UnknownVariable 0 c:3
block root a(k()) {};~a(k(^~"^" ^; a())) => TooLong 0 c:1
block root a(k(^)) {};~a() => TooLong 0 c:1
block root a(k({~a()})) {`k`};~a() => TooLong 0 c:3
block root a(k({~a()} `V`)) {`k`};~a() => TooLong 0 c:3
block root a(k(`V` {~a()})) {`k`};~a() => TooLong 0 c:1
^ => TooLong 0 c:1
~"^" => TooLong 0 c:3
"^~`NO`" => UnknownVariable 0 c:2
@define W "^" => TooLong 0 c:2
@define W~"^`NO`" => UnknownVariable 0 c:3
@include "^" => TooLong 0 c:2
@include~"^`NO`" => UnknownVariable 0 c:3
"#;

/// Texts that are made, by their names. From the line 18 on of those that double the whole is too long.
/// The files of a hundred lines include the next of 14 each: 12 files of 1,505 bytes with their names
/// come first, five more of them with a hundred files of 2,005 each follow, and ten more of these. The
/// file after 65,536, with the main file, isn't asked for, and a main file that is too long isn't
/// looked at.
const MADE: &str = r#"doubles => TooLong 0 c:18
hundreds => TooLong 50517 h12:11
files => TooLong 0 c:65537
limit => a ;
beyond => TooLong 0 c:1
nested => TooLong 0 c:2
pairs => TooLong 0 c:3
defaults => TooLong 0 c:3
"#;

/// The places at which tokens were written, and the files' names.
const PLACES: &str = r#"@version: 4.2~a "b~c" d; => a@0:2:1 "b~c"@0:2:3 d@0:3:4 ;@0:3:5 c
@version: 4.2~@define V~"x"~block root a(k()) {~`k` `V` "`V`"};~a(k(~b));~@include "out.conf" => b@0:7:1 "x"@0:3:1 "x"@0:5:9 ;@0:7:4 file@1:1:1 (@1:1:5 "out"@1:1:6 )@1:1:11 c out.conf
@version: 4.2 @include "e" @include "semi" @include "e" => s@2:1:1 ;@2:1:2 c e semi e
"#;

/// A token's text behind a space, with what shows its kind.
fn push_token(shown: &mut Vec<u8>, token: &Token) -> Result<(), NoMemory> {
    shown.push(b' ')?;
    match token.kind {
        TokenKind::Str => {
            shown.push(b'"')?;
            shown.extend_from_slice(token.text.bytes())?;
            shown.push(b'"')?;
        }
        TokenKind::At => {
            shown.push(b'@')?;
            shown.extend_from_slice(token.text.bytes())?;
        }
        _ => shown.extend_from_slice(token.text.bytes())?,
    }
    Ok(())
}

/// The tokens, one space before each.
fn told(alloc: Global, expanded: &Expanded) -> Result<Vec<u8>, NoMemory> {
    let mut shown = Vec::new(alloc);
    for token in expanded.tokens.as_slice() {
        push_token(&mut shown, token)?;
    }
    Ok(shown)
}

/// A token with its place.
fn push_placed(shown: &mut Vec<u8>, alloc: Global, token: &Token) -> Result<(), NoMemory> {
    push_token(shown, token)?;
    let place = format!(in alloc; "@{}:{}:{}", token.file, token.line, token.column)?;
    shown.extend_from_slice(place.as_bytes())
}

/// The files' names.
fn push_names(shown: &mut Vec<u8>, names: &[Name]) -> Result<(), NoMemory> {
    for name in names {
        shown.push(b' ')?;
        shown.extend_from_slice(name.bytes())?;
    }
    Ok(())
}

/// The tokens with their places, and the files' names.
fn placed(alloc: Global, expanded: &Expanded) -> Result<Vec<u8>, NoMemory> {
    let mut shown = Vec::new(alloc);
    for token in expanded.tokens.as_slice() {
        push_placed(&mut shown, alloc, token)?;
    }
    push_names(&mut shown, expanded.names.as_slice())?;
    Ok(shown)
}

/// A number behind these words.
fn push_number(
    shown: &mut Vec<u8>,
    alloc: Global,
    words: &[u8],
    number: u64,
) -> Result<(), NoMemory> {
    shown.extend_from_slice(words)?;
    shown.extend_from_slice(format!(in alloc; "{number}")?.as_bytes())
}

/// What is wrong, and the number of the file, behind a space.
fn kind_text(alloc: Global, fault: ConfigFault) -> Result<Vec<u8>, NoMemory> {
    Ok(format!(in alloc; " {:?} {} ", fault.kind, fault.file)?.into_bytes())
}

/// What is wrong, and where: the number of the file, its name and the line.
fn blamed(alloc: Global, fault: ConfigFault, names: &Seq<Name>) -> Result<Vec<u8>, NoMemory> {
    let mut shown = kind_text(alloc, fault)?;
    if let Some(name) = names.get(fault.file as usize) {
        shown.extend_from_slice(name.bytes())?;
    }
    push_number(&mut shown, alloc, b":", u64::from(fault.line))?;
    Ok(shown)
}

/// The file that wasn't read, and how many readings failed.
fn unread(alloc: Global, name: &Name, faults: u64) -> Result<Vec<u8>, NoMemory> {
    let mut shown = b" ".to_vec(alloc)?;
    shown.extend_from_slice(name.bytes())?;
    push_number(&mut shown, alloc, b" not read ", faults)?;
    Ok(shown)
}

/// What is said of an expansion, behind which so many readings failed.
fn outcome(
    alloc: Global,
    made: &Result<Expanded, ExpandRefusal>,
    faults: u64,
    with_places: bool,
) -> Result<Vec<u8>, NoMemory> {
    match made {
        Ok(expanded) if with_places => placed(alloc, expanded),
        Ok(expanded) => told(alloc, expanded),
        Err(ExpandRefusal::Bad { fault, names }) => blamed(alloc, *fault, names),
        Err(ExpandRefusal::ReadFault(name)) => unread(alloc, name, faults),
        Err(ExpandRefusal::NoMemory) => Err(AllocError),
    }
}

fn answer(alloc: Global, text: &[u8], with_places: bool) -> Result<Vec<u8>, NoMemory> {
    let name = Name::new(alloc, b"c")?;
    let mut files = TextFiles {
        faults: 0,
        unread: None,
    };
    let made = expand(alloc, name, text, &mut files);
    outcome(alloc, &made, files.faults, with_places)
}

/// Adds a row and the answer, where it isn't the one that is wanted.
fn compare(wrong: &mut Vec<u8>, row: &str, shown: &[u8], want: &[u8]) -> Result<(), NoMemory> {
    if shown != want {
        wrong.extend_from_slice(row.as_bytes())?;
        wrong.extend_from_slice(b" but")?;
        wrong.extend_from_slice(shown)?;
        wrong.push(b'\n')?;
    }
    Ok(())
}

/// Adds a row that isn't understood.
fn push_unread(wrong: &mut Vec<u8>, row: &str) -> Result<(), NoMemory> {
    wrong.extend_from_slice(row.as_bytes())?;
    wrong.extend_from_slice(b" is not understood\n")?;
    Ok(())
}

/// Adds a row behind this text, where it has another answer.
fn compare_behind(
    wrong: &mut Vec<u8>,
    alloc: Global,
    head: &str,
    row: &str,
    with_places: bool,
) -> Result<(), NoMemory> {
    let Some((tail, want)) = row.split_once(" =>") else {
        return push_unread(wrong, row);
    };
    let text = text_behind(alloc, head, tail)?;
    let shown = answer(alloc, &text, with_places)?;
    let want = text_behind(alloc, "", want)?;
    compare(wrong, row, &shown, &want)
}

/// The rows with another answer, where each text stands behind this one.
fn wrong_behind(
    alloc: Global,
    head: &str,
    rows: &str,
    with_places: bool,
) -> Result<Vec<u8>, NoMemory> {
    let mut wrong = Vec::new(alloc);
    for row in rows.lines() {
        compare_behind(&mut wrong, alloc, head, row, with_places)?;
    }
    Ok(wrong)
}

/// Adds a row, where its text has another answer.
fn compare_text(
    wrong: &mut Vec<u8>,
    alloc: Global,
    row: &str,
    text: &[u8],
    want: &str,
) -> Result<(), NoMemory> {
    let shown = answer(alloc, text, false)?;
    compare(wrong, row, &shown, want.as_bytes())
}

/// Adds a row that is the name of a text, where it has another answer.
fn compare_made(wrong: &mut Vec<u8>, alloc: Global, row: &str) -> Result<(), NoMemory> {
    let Some((name, want)) = row.split_once(" =>") else {
        return push_unread(wrong, row);
    };
    let made = made_text(alloc, name)?;
    match &made {
        Some(text) => compare_text(wrong, alloc, row, text, want),
        None => push_unread(wrong, row),
    }
}

/// The room, the text and the answer of a row.
fn room_of(row: &str) -> Option<(usize, &str, &str)> {
    let Some((text, want)) = row.split_once(" =>") else {
        return None;
    };
    let Some((room, tail)) = text.split_once(": ") else {
        return None;
    };
    match room.parse::<usize>() {
        Ok(room) if room <= MOST_ROOM => Some((room, tail, want)),
        _ => None,
    }
}

/// Adds a row behind a text that leaves room, where it has another answer.
fn compare_in_room(wrong: &mut Vec<u8>, alloc: Global, row: &str) -> Result<(), NoMemory> {
    let Some((room, tail, want)) = room_of(row) else {
        return push_unread(wrong, row);
    };
    let text = text_with_room(alloc, room, tail)?;
    compare_text(wrong, alloc, row, &text, want)
}

/// The rows with another answer, where each text stands behind one that leaves room.
fn wrong_in_room(alloc: Global) -> Result<Vec<u8>, NoMemory> {
    let mut wrong = Vec::new(alloc);
    for row in TOTALS.lines() {
        compare_in_room(&mut wrong, alloc, row)?;
    }
    Ok(wrong)
}

/// The rows with another answer, where each text is made.
fn wrong_made(alloc: Global) -> Result<Vec<u8>, NoMemory> {
    let mut wrong = Vec::new(alloc);
    for row in MADE.lines() {
        compare_made(&mut wrong, alloc, row)?;
    }
    Ok(wrong)
}

/// The rows of a table with another answer, where each text stands behind a version and a variable,
/// where these are asked for.
fn wrong_rows(
    alloc: Global,
    rows: &str,
    with_version: bool,
    with_variable: bool,
    with_places: bool,
) -> Result<Vec<u8>, Fail> {
    let head = head_of(alloc, with_version, with_variable)?;
    let head = str::from_utf8(&head)?;
    Ok(wrong_behind(alloc, head, rows, with_places)?)
}

/// Whether each row of the files is understood.
fn are_files() -> bool {
    for row in FILES.lines() {
        if row.split_once(" => ").is_none() {
            return false;
        }
    }
    true
}

#[test]
fn texts_are_expanded(rt: HostRuntime) -> Result<(), Fail> {
    assert!(rt; are_files());
    for (rows, with_version, with_variable, with_places) in [
        (VERSIONS, false, false, false),
        (DIRECTIVES, true, false, false),
        (INCLUDES, true, false, false),
        (BLOCKS, true, false, false),
        (USES, true, false, false),
        (STRINGS, true, false, false),
        (WHOLE, true, false, false),
        (PLACES, false, false, true),
        (LONG, true, true, false),
    ] {
        let wrong = wrong_rows(rt.alloc(), rows, with_version, with_variable, with_places)?;
        assert_eq!(rt; str::from_utf8(&wrong)?, "");
    }
    Ok(())
}

#[test]
fn totals_have_a_limit(rt: HostRuntime) -> Result<(), Fail> {
    let wrong = wrong_in_room(rt.alloc())?;
    assert_eq!(rt; str::from_utf8(&wrong)?, "");
    let wrong = wrong_made(rt.alloc())?;
    assert_eq!(rt; str::from_utf8(&wrong)?, "");
    Ok(())
}
