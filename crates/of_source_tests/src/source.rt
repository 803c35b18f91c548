use of_fcodes::{FCode, Word, name_of, word_of};
use of_source::{Item, Made, Maker, Name, Place, Plain, SourceFault, item_places, parse, place_in};
use of_stream::OffsetSize;
use std::alloc::{AllocError, Global};
use std::process::Abort;
use std::test::Fail;

/// A word by its FCode in hexadecimal digits, or by `#` and the number of its definition.
fn name_text(alloc: Global, name: Name) -> Result<String, AllocError> {
    match name {
        Name::Listed(code) => format!(in alloc; "{:x}", code.0),
        Name::Own(number) => format!(in alloc; "#{number}"),
    }
}

/// A string: `"` and its bytes in hexadecimal digits.
fn string_text(alloc: Global, bytes: &[u8]) -> Result<String, AllocError> {
    let mut text = String::from_str(alloc, "\"")?;
    for byte in bytes {
        text.push_str(&format!(in alloc; "{byte:02x}")?)?;
    }
    Ok(text)
}

/// What gives a definition its number: the token maker, the name and the number.
fn making_text(alloc: Global, made: &Made) -> Result<String, AllocError> {
    let name = string_text(alloc, &made.name)?;
    let number = made.number;
    match made.maker {
        Maker::Named => format!(in alloc; "named:{name}#{number}"),
        Maker::External => format!(in alloc; "external:{name}#{number}"),
        Maker::Unnamed => format!(in alloc; "new:{name}#{number}"),
    }
}

/// A position in a text: its line, `:` and its column.
fn place_text(alloc: Global, text: &[u8], position: usize) -> Result<String, AllocError> {
    let Place { line, column } = place_in(text, position);
    format!(in alloc; "{line}:{column}")
}

/// A control structure's word without its place, and its position where it carries an offset.
fn control_word(item: &Item) -> (&'static str, Option<usize>) {
    match item {
        Item::If(at) => ("if", Some(*at)),
        Item::Else(at) => ("else", Some(*at)),
        Item::Then => ("then", None),
        Item::Begin => ("begin", None),
        Item::Back(true, at) => ("until", Some(*at)),
        Item::Back(false, at) => ("again", Some(*at)),
        Item::Do(true, at) => ("?do", Some(*at)),
        Item::Do(false, at) => ("do", Some(*at)),
        Item::Loop(true, at) => ("+loop", Some(*at)),
        Item::Loop(false, at) => ("loop", Some(*at)),
        Item::Leave => ("leave", None),
        Item::Case => ("case", None),
        Item::Of(at) => ("of", Some(*at)),
        Item::EndOf(at) => ("endof", Some(*at)),
        Item::EndCase => ("endcase", None),
        _ => ("?", None),
    }
}

/// A control structure's word, with its line and column where it carries an offset.
fn control_text(alloc: Global, text: &[u8], item: &Item) -> Result<String, AllocError> {
    let (word, position) = control_word(item);
    match position {
        Some(position) => {
            let place = place_text(alloc, text, position)?;
            format!(in alloc; "{word}@{place}")
        }
        None => String::from_str(alloc, word),
    }
}

/// A token by itself.
fn plain_text(alloc: Global, plain: &Plain) -> Result<String, AllocError> {
    match plain {
        Plain::Call(name) => name_text(alloc, *name),
        Plain::Literal(x) => format!(in alloc; "={:x}", x.0),
        Plain::String(bytes) => string_text(alloc, bytes),
        Plain::Naming(token, name) => {
            let name = name_text(alloc, *name)?;
            format!(in alloc; "{:x}>{name}", token.0)
        }
    }
}

/// An item in a few characters.
fn item_text(alloc: Global, text: &[u8], item: &Item) -> Result<String, AllocError> {
    match item {
        Item::Plain(plain) => plain_text(alloc, plain),
        Item::Colon(made) => {
            let making = making_text(alloc, made)?;
            format!(in alloc; "{making} :")
        }
        Item::Defining(made, token) => {
            let making = making_text(alloc, made)?;
            format!(in alloc; "{making} {:x}", token.0)
        }
        Item::Semicolon => String::from_str(alloc, ";"),
        _ => control_text(alloc, text, item),
    }
}

/// The first offset size of a source and its items, with blanks between.
fn outcome(alloc: Global, text: &[u8]) -> Result<String, SourceFault> {
    let source = parse(alloc, text)?;
    let mut shown = match source.size() {
        OffsetSize::One => String::from_str(alloc, "one")?,
        OffsetSize::Two => String::from_str(alloc, "two")?,
    };
    for item in source.items() {
        shown.push(' ')?;
        shown.push_str(&item_text(alloc, text, item)?)?;
    }
    Ok(shown)
}

/// A fault, with its line and column.
fn fault_text(alloc: Global, text: &[u8], fault: SourceFault) -> Result<String, AllocError> {
    let (kind, position) = match fault {
        SourceFault::Unclosed(position) => ("Unclosed", position),
        SourceFault::Unknown(position) => ("Unknown", position),
        SourceFault::BadNumber(position) => ("BadNumber", position),
        SourceFault::TooLong(position) => ("TooLong", position),
        SourceFault::NoMemory => return String::from_str(alloc, "NoMemory"),
    };
    let place = place_text(alloc, text, position)?;
    format!(in alloc; "{kind} at {place}")
}

/// A line of a table as the text of a source: `~` ends a line.
fn text_of(alloc: Global, before: &str, line: &str, after: &str) -> Result<Vec<u8>, AllocError> {
    let mut text = before.as_bytes().to_vec(alloc)?;
    for byte in line.bytes() {
        text.push(if byte == b'~' { b'\n' } else { byte })?;
    }
    text.extend_from_slice(after.as_bytes())?;
    Ok(text)
}

/// Each line of a table: a source, `|`, and its items or its fault.
fn check(
    rt: &impl Abort,
    alloc: Global,
    before: &str,
    after: &str,
    table: &str,
) -> Result<(), Fail> {
    for line in table.lines() {
        let (source, wanted) = line.split_once('|').unwrap_or(("", ""));
        let text = text_of(alloc, before, source.trim(), after)?;
        let given = match outcome(alloc, &text) {
            Ok(shown) => shown,
            Err(fault) => fault_text(alloc, &text, fault)?,
        };
        assert_eq!(rt; given.as_str(), wanted.trim(), "{line}");
    }
    Ok(())
}

/// Whole texts.
const TEXTS: &str = "\
fcode-version2 headerless : t begin dup while 1- dup 2 <> while repeat then ; 5 t . fcode-end \
| two new:\"74#0 : begin 47 if@1:41 a6 1f 47 a7 3d if@1:59 again@1:65 then then ; =5 #0 9d
fcode-version2 \" card\" device-name : add3 3 + ; 2 add3 . fcode-end \
| two \"63617264 201 named:\"61646433#0 : a8 1e ; a7 #0 9d
fcode-version1 headerless : t if 1 else 2 then ; 0 t . fcode-end \
| one new:\"74#0 : if@1:31 a6 else@1:36 a7 then ; a5 #0 9d
FCODE-Version2 Fcode-End | two
fcode-version1 offset16 fcode-end | one cc
( a ) \\ b~fcode-version2 1 fcode-end \\ c~( d ) | two a6
| Unclosed at 1:1
~ | Unclosed at 1:1
~~ | Unclosed at 2:1
( a | Unknown at 1:1
1 fcode-version2 fcode-end | Unknown at 1:1
~then fcode-version2 | Unclosed at 2:1
100000000 | BadNumber at 1:1
fcode-version2 | Unclosed at 1:14
fcode-version2~ | Unclosed at 1:15
fcode-version2~1 2 + | Unclosed at 2:5
fcode-version2 if~begin~ | Unclosed at 1:16
fcode-version2 begin~if | Unclosed at 1:16
fcode-version2~: | Unclosed at 2:1
fcode-version2~value~ | Unclosed at 2:6
fcode-version2~if '~~ | Unclosed at 2:1
fcode-version2 char~~ | Unclosed at 2:1
fcode-version2 fcode-end then | Unclosed at 1:26
fcode-version2 fcode-end ; | Unclosed at 1:26
fcode-version2 fcode-end else | Unclosed at 1:26
fcode-version2 fcode-end until | Unclosed at 1:26
fcode-version2 fcode-end again | Unclosed at 1:26
fcode-version2 fcode-end repeat | Unclosed at 1:26
fcode-version2 fcode-end loop | Unclosed at 1:26
fcode-version2 fcode-end +loop | Unclosed at 1:26
fcode-version2 fcode-end leave | Unclosed at 1:26
fcode-version2 fcode-end of | Unclosed at 1:26
fcode-version2 fcode-end endof | Unclosed at 1:26
fcode-version2 fcode-end endcase | Unclosed at 1:26
fcode-version2 fcode-end : | Unknown at 1:26
fcode-version2 fcode-end if | Unknown at 1:26
fcode-version2 fcode-end while | Unknown at 1:26
fcode-version2 fcode-end begin | Unknown at 1:26
fcode-version2 fcode-end do | Unknown at 1:26
fcode-version2 fcode-end ?do | Unknown at 1:26
fcode-version2 fcode-end case | Unknown at 1:26
fcode-version2 fcode-end~1 | Unknown at 2:1
fcode-version2 fcode-end~100000000 | BadNumber at 2:1
fcode-version2 decimal fcode-end 4294967296 | BadNumber at 1:34
fcode-version2 fcode-end fcode-end | Unknown at 1:26
fcode-version2 fcode-end ( a | Unknown at 1:26
fcode-version2 : fcode-end 1 ; fcode-end fcode-end | Unclosed at 1:50
";

#[test]
fn texts(rt: HostRuntime) -> Result<(), Fail> {
    check(&rt, rt.alloc(), "", "", TEXTS)
}

/// Words, numbers, strings, comments and names between `fcode-version2` and `fcode-end`.
const WORDS: &str = "\
dup + Swap DROP - | two 47 1e 49 46 1f
1\t2\x012 | two a6 a7 a7
-1 0 1 2 3 4 ffffffff | two a4 a5 a6 a7 a8 =4 a4
-2 80000000 -80000000 1F | two =fffffffe =80000000 =80000000 =1f
10 decimal 10 4294967295 hex 10 | two =10 =a a4 =10
h# 1F d# 31 h# 2 d# -1 d# 10 10 | two =1f =1f a7 a4 =a =10
char A [char] az char~1 | two =41 =61 =31
1+ 1- 2+ 2- true false struct | two a6 1e a6 1f a7 1e a7 1f a4 a5 a5
space erase << >> not | two a9 8f a5 79 27 28 26
\" ab\" s\" ab\" .\" ab\"dup | two \"6162 \"6162 \"6162 90 47
\" a\"(41 42)b\" \" \"(0a0D ff)\" | two \"61414262 \"0a0dff
\" \"( )\" \" \" s\" a\"(41) 1 | Unknown at 1:33
\" \"( )\" \" \" s\" \" | two \" \" \"
\" a\"(4 1)\" | Unknown at 1:20
\" a\"(41~42)\" | Unknown at 1:20
\" a\"(41\t42)\" | two \"614142
\" a\"(414)\" | Unknown at 1:20
( a b )1 \\ c d~2 ( e ) 3 | two a6 a7 a8
offset16 : t offset16 1 if 2 then ; | two cc named:\"74#0 : cc a6 if@1:40 a7 then ;
headerless : t ; external : u ; headers : v ; | two new:\"74#0 : ; external:\"75#1 : ; named:\"76#2 : ;
value a variable b constant c | two named:\"61#0 b8 named:\"62#1 b9 named:\"63#2 ba
create d defer~e | two named:\"64#0 bb named:\"65#1 bc
buffer: f field g | two named:\"66#0 bd named:\"67#1 be
5 instance value a | two =5 c0 named:\"61#0 b8
: Ab 1 ; ab AB aB | two named:\"4162#0 : a6 ; #0 #0 #0
: f recurse ; | two named:\"66#0 : #0 ;
: f 1 ; : f f ; f | two named:\"66#0 : a6 ; named:\"66#1 : #0 ; #1
: dup drop ; dup ' DUP | two named:\"647570#0 : 46 ; #0 11>#0
: 1 2 ; 1 | two named:\"31#0 : a7 ; #0
: ; 1 ; ; | two named:\"3b#0 : a6 ; #0
: ( 1 ; ( ( | two named:\"28#0 : a6 ; #0 #0
value v 5 to v ' dup [']~V | two named:\"76#0 b8 =5 c3>#0 11>47 11>#0
: t to u ; value u | Unknown at 1:23
: a234567890123456789012345678901 ; | \
two named:\"61323334353637383930313233343536373839303132333435363738393031#0 : ;
";

#[test]
fn words(rt: HostRuntime) -> Result<(), Fail> {
    check(&rt, rt.alloc(), "fcode-version2 ", " fcode-end", WORDS)
}

/// Control structures between `fcode-version2` and `fcode-end`.
const STRUCTURES: &str = "\
If Else~Then | two if@1:16 else@1:19 then
begin while repeat | two begin if@1:22 again@1:28 then
begin~1 until begin again | two begin a6 until@2:3 begin again@2:15
if begin repeat | two if@1:16 begin again@1:25 then
begin if again then | two begin if@1:22 again@1:25 then
begin while while repeat then | two begin if@1:22 if@1:28 again@1:34 then then
2 0 do i leave loop | two a7 a5 do@1:20 19 leave loop@1:31
2 0~?do 2~+loop | two a7 a5 ?do@2:1 a7 +loop@3:1
case 1 of 2 endof dup of endof drop endcase | two case a6 of@1:23 a7 endof@1:28 47 of@1:38 endof@1:41 46 endcase
do begin leave again loop | two do@1:16 begin leave again@1:31 loop@1:37
do case of leave endof endcase loop | two do@1:16 case of@1:24 leave endof@1:33 endcase loop@1:47
0 if : a ; then a | two a5 if@1:18 named:\"61#0 : ; then #0
then | Unclosed at 1:16
else | Unclosed at 1:16
until | Unclosed at 1:16
again | Unclosed at 1:16
repeat | Unclosed at 1:16
begin~repeat | Unclosed at 2:1
loop | Unclosed at 1:16
+loop | Unclosed at 1:16
begin leave again | Unclosed at 1:22
do~: t leave ; loop | Unclosed at 2:5
of | Unclosed at 1:16
case do of endof loop endcase | Unclosed at 1:24
case~if of endof then endcase | Unclosed at 2:4
endof | Unclosed at 1:16
endcase | Unclosed at 1:16
; | Unclosed at 1:16
: t if~; | Unclosed at 2:1
if~do~then loop | Unclosed at 3:1
do~if loop then | Unclosed at 2:4
if~begin | Unclosed at 1:16
~begin~if | Unclosed at 2:1
";

#[test]
fn structures(rt: HostRuntime) -> Result<(), Fail> {
    check(&rt, rt.alloc(), "fcode-version2 ", " fcode-end", STRUCTURES)
}

/// What is wrong between `fcode-version2` and `fcode-end`.
const FAULTS: &str = "\
~xyzzy | Unknown at 2:1
12x | Unknown at 1:16
ahead | Unknown at 1:16
b(lit) | Unknown at 1:16
end0 | Unknown at 1:16
new-token | Unknown at 1:16
recurse | Unknown at 1:16
: a : b ; ; | Unknown at 1:20
: a~value b ; | Unknown at 2:1
' if | Unknown at 1:18
'~5 | Unknown at 2:1
to : | Unknown at 1:19
0 if offset16 then | Unknown at 1:21
0 do~offset16 loop | Unknown at 2:1
begin offset16 again | Unknown at 1:22
case offset16 endcase | Unknown at 1:21
do : t offset16 ; loop | Unknown at 1:23
: t if offset16 then ; | Unknown at 1:23
\" abc | Unknown at 1:16
~\" abc~\" | Unknown at 2:1
s\" x~\" | Unknown at 1:16
~~.\" x | Unknown at 3:1
( abc~) | Unknown at 1:16
: t ['] t ; | Unknown at 1:24
: t ' t ; | Unknown at 1:22
: t to t ; | Unknown at 1:23
: foo foo ; | Unknown at 1:22
100000000 | BadNumber at 1:16
~-80000001 | BadNumber at 2:1
decimal 4294967296 | BadNumber at 1:24
decimal 99999999999999999999 | BadNumber at 1:24
~h#~xyz | BadNumber at 2:1
decimal 1f | Unknown at 1:24
d# 1f | BadNumber at 1:16
h# 100000000 | BadNumber at 1:16
~d# | BadNumber at 2:1
: b2345678901234567890123456789012 ; | TooLong at 1:18
value~b2345678901234567890123456789012 | TooLong at 2:1
";

#[test]
fn faults(rt: HostRuntime) -> Result<(), Fail> {
    check(&rt, rt.alloc(), "fcode-version2 ", " fcode-end", FAULTS)
}

/// A source of these pieces: the first, the second so many times, and the third.
fn repeated(
    alloc: Global,
    first: &str,
    piece: &str,
    count: usize,
    last: &str,
) -> Result<Vec<u8>, AllocError> {
    let mut text = first.as_bytes().to_vec(alloc)?;
    for _ in 0..count {
        text.extend_from_slice(piece.as_bytes())?;
    }
    text.extend_from_slice(last.as_bytes())?;
    Ok(text)
}

/// How many items a source has.
fn item_count(alloc: Global, text: &[u8]) -> Result<usize, SourceFault> {
    Ok(parse(alloc, text)?.items().len())
}

#[test]
fn limits(rt: HostRuntime) -> Result<(), Fail> {
    let alloc = rt.alloc();
    let string = repeated(alloc, "fcode-version2 s\" ", "x", 255, "\" fcode-end")?;
    assert_eq!(rt; item_count(alloc, &string), Ok(1));
    let string = repeated(alloc, "fcode-version2\n\" ", "x", 256, "\" fcode-end")?;
    assert_eq!(rt; item_count(alloc, &string), Err(SourceFault::TooLong(15)));
    let definitions = repeated(alloc, "fcode-version2 ", ": a ;\n", 2049, "fcode-end")?;
    assert_eq!(rt; item_count(alloc, &definitions), Ok(4098));
    let branches = repeated(alloc, "fcode-version2 : t ", "if ", 32, "else ; fcode-end")?;
    assert_eq!(rt;
        item_count(alloc, &branches),
        Err(SourceFault::Unclosed(120))
    );
    Ok(())
}

#[test]
fn many_branches(rt: HostRuntime) -> Result<(), Fail> {
    let alloc = rt.alloc();
    let opened = repeated(alloc, "fcode-version2 : t ", "if ", 32, "else ")?;
    let closed = repeated(alloc, "", "then ", 32, "; fcode-end")?;
    let mut text = opened;
    text.extend_from_slice(&closed)?;
    assert_eq!(rt; item_count(alloc, &text), Ok(67));
    Ok(())
}

#[test]
fn long_text(rt: HostRuntime) -> Result<(), Fail> {
    let alloc = rt.alloc();
    let text = repeated(alloc, "fcode-version2 ", ": a ;\n", 12_000, "fcode-end")?;
    assert_eq!(rt; item_count(alloc, &text), Ok(24_000));
    Ok(())
}

/// The places of `\n` and of the letters of `ab\nc`, and of what is behind them.
#[test]
fn places(rt: HostRuntime) -> Result<(), Fail> {
    let rows = [
        (0, 1, 1),
        (1, 1, 2),
        (2, 1, 3),
        (3, 2, 1),
        (4, 2, 2),
        (9, 2, 2),
    ];
    for (position, line, column) in rows {
        assert_eq!(rt; place_in(b"ab\nc", position), Place { line, column });
    }
    assert_eq!(rt; place_in(b"\n\n", 2), Place { line: 3, column: 1 });
    Ok(())
}

/// Sources with the positions of the words that begin them, of their items, and of the words that end them; of one that
/// isn't accepted those up to the word that fits nowhere.
const POSITIONS: &str = "\
fcode-version2 fcode-end|0 15
( a ) fcode-version2 : t 1+ ; t fcode-end|6 21 25 25 28 30 32
fcode-version2 : double dup + ; decimal 12 double fcode-end|0 15 24 28 30 40 43 50
fcode-version2 \" a b\" 2drop h# 10 drop ( no ) ' dup drop fcode-end|0 15 22 28 34 46 52 57
fcode-version2 begin 0 while repeat fcode-end|0 15 21 23 29 29 36
fcode-version2 1 2 then fcode-end|0 15 17
5|0
";

#[test]
fn positions(rt: HostRuntime) -> Result<(), Fail> {
    for line in POSITIONS.lines() {
        let (source, wanted) = line.split_once('|').unwrap_or(("", ""));
        let places = item_places(rt.alloc(), source.as_bytes())?;
        let mut shown = String::new(rt.alloc());
        for place in places.as_slice() {
            if !shown.is_empty() {
                shown.push(' ')?;
            }
            shown.push_str(&format!(in rt.alloc(); "{place}")?)?;
        }
        assert_eq!(rt; shown.as_str(), wanted, "{source}");
    }
    Ok(())
}

/// Whether a source may use a word by its name.
fn is_ordinary(word: Option<Word>) -> bool {
    !matches!(word, None | Some(Word::Stream(_)))
}

/// Each word of the board that acts on no image stands in a source for its own token.
#[test]
fn ordinary_words(rt: HostRuntime) -> Result<(), Fail> {
    let alloc = rt.alloc();
    let mut tried = Vec::new(alloc);
    for number in 0..0x1000 {
        let code = FCode(number);
        let Some(name) = name_of(code) else { continue };
        if !is_ordinary(word_of(code)) {
            continue;
        }
        let text = format!(in alloc; "fcode-version2 {name} fcode-end")?;
        let wanted = format!(in alloc; "two {number:x}")?;
        assert_eq!(rt; outcome(alloc, text.as_bytes()), Ok(wanted), "{name}");
        tried.push(number)?;
    }
    assert_eq!(rt; tried.len(), 224);
    Ok(())
}
