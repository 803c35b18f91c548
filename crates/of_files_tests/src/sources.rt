use of_files::{Messages, SourceList, list, tok};
use std::alloc::Global;
use std::process::Abort;
use std::test::Fail;

/// Sources, each ended by `=>`, and what is said of them, ended by `;;`.
const CASES: &str = "\
5 .=>
ofw: a.fs:1:1: unknown word
ofw:   5 .
ofw:   ^
ofw: a source begins with `fcode-version1` or `fcode-version2`
;;
\\ a comment
( another )  5 .=>
ofw: a.fs:2:14: unknown word
ofw:   ( another )  5 .
ofw:                ^
ofw: a source begins with `fcode-version1` or `fcode-version2`
;;
\u{feff}fcode-version2 fcode-end=>
ofw: a.fs:1:1: unknown word
ofw:      fcode-version2 fcode-end
ofw:   ^^^^^^^^^^^^^^^^^
ofw: a byte order mark stands before the first word
;;
f108020a0000000da7a81e9d00=>
ofw: a.fs:1:1: bad number
ofw:   f108020a0000000da7a81e9d00
ofw:   ^^^^^^^^^^^^^^^^^^^^^^^^^^
ofw: this looks like an image: `ofw detok` lists it
;;
fcode-version2 fcode-end
5 .=>
ofw: a.fs:2:1: unknown word
ofw:   5 .
ofw:   ^
ofw: only comments may follow `fcode-end`
;;
fcode-version2
5 .
=>
ofw: a.fs:2:4: unclosed
ofw:   5 .
ofw:      ^
ofw: `fcode-end` is missing
;;
fcode-version2 5 zork fcode-end=>
ofw: a.fs:1:18: unknown word
ofw:   fcode-version2 5 zork fcode-end
ofw:                    ^^^^
ofw: no word that is known here has this name, and it is no number
;;
fcode-version2 \" abc fcode-end=>
ofw: a.fs:1:16: unknown word
ofw:   fcode-version2 \" abc fcode-end
ofw:                  ^
ofw: the string's end isn't on its line
;;
fcode-version2 ( abc fcode-end=>
ofw: a.fs:1:16: unknown word
ofw:   fcode-version2 ( abc fcode-end
ofw:                  ^
ofw: the comment has no end
;;
fcode-version2 then fcode-end=>
ofw: a.fs:1:16: unclosed
ofw:   fcode-version2 then fcode-end
ofw:                  ^^^^
ofw: `then` closes no `if`, `while` or `else` here
;;
fcode-version2
: t 5 if 6 ;
fcode-end=>
ofw: a.fs:2:12: unclosed
ofw:   : t 5 if 6 ;
ofw:              ^
ofw: `;` closes no `:` here
ofw: `if` of line 2 is open here
;;
fcode-version2
: t \\ if
 ( do ) \" case \" begin
 5 then ;
fcode-end=>
ofw: a.fs:4:4: unclosed
ofw:    5 then ;
ofw:      ^^^^
ofw: `then` closes no `if`, `while` or `else` here
ofw: `begin` of line 3 is open here
;;
fcode-version2
5 if 6 . fcode-end=>
ofw: a.fs:2:3: unclosed
ofw:   5 if 6 . fcode-end
ofw:     ^^
ofw: this `if` is left open
;;
fcode-version2 : t if 5 then fcode-end=>
ofw: a.fs:1:16: unclosed
ofw:   fcode-version2 : t if 5 then fcode-end
ofw:                  ^
ofw: this `:` is left open
;;
fcode-version2 : t : u ; ; fcode-end=>
ofw: a.fs:1:20: unknown word
ofw:   fcode-version2 : t : u ; ; fcode-end
ofw:                      ^
ofw: a definition stands outside of all others
;;
fcode-version2 recurse fcode-end=>
ofw: a.fs:1:16: unknown word
ofw:   fcode-version2 recurse fcode-end
ofw:                  ^^^^^^^
ofw: `recurse` stands in a definition
;;
fcode-version2 h# zz fcode-end=>
ofw: a.fs:1:16: bad number
ofw:   fcode-version2 h# zz fcode-end
ofw:                  ^^
ofw: a number has 32 bits, and digits of its base
;;
fcode-version2 : a23456789b123456789c123456789d12 ; fcode-end=>
ofw: a.fs:1:18: too long: a name has at most 31 bytes, a string 255
ofw:   fcode-version2 : a23456789b123456789c123456789d12 ; fcode-end
ofw:                    ^^^^^^^^^^^^^^^^^^^^^^^^^^^^^^^^
;;
fcode-version2 fcode-end=>
;;
";

/// What is said of a source.
fn said_of(alloc: Global, source: &str) -> Result<Vec<u8>, Fail> {
    let mut said = Vec::new(alloc);
    let mut out = Vec::new(alloc);
    let mut file = source.as_bytes();
    let _ = tok(
        alloc,
        "a.fs",
        &mut file,
        &mut out,
        &mut Messages::new(&mut said),
    );
    Ok(said)
}

/// Whether of the source of a case is said what the case says.
fn holds(rt: &impl Abort, alloc: Global, case: &str) -> Result<(), Fail> {
    let mut parts = case.split("=>\n");
    let source = parts.next().unwrap_or("");
    let wanted = parts.next().unwrap_or("");
    let said = said_of(alloc, source)?;
    assert_eq!(rt; said.as_slice(), wanted.as_bytes(), "{source}");
    Ok(())
}

#[test]
fn wrong_sources(rt: HostRuntime) -> Result<(), Fail> {
    for case in CASES.split_terminator(";;\n") {
        holds(&rt, rt.alloc(), case)?;
    }
    Ok(())
}

/// The image of a source is printed in hexadecimal digits.
#[test]
fn right_source(rt: HostRuntime) {
    let mut said = Vec::new(rt.alloc());
    let mut out = Vec::new(rt.alloc());
    let mut file = b"fcode-version2 fcode-end".as_slice();
    let mut errors = Messages::new(&mut said);
    let status = tok(rt.alloc(), "a.fs", &mut file, &mut out, &mut errors);
    assert_eq!(rt; status.code(), 0);
    assert_eq!(rt; out.as_slice(), b"f10800000000000900\n".as_slice());
}

/// A source of six lines.
const SIX_LINES: &str =
    "\\ a driver\nfcode-version2\n: inc 1+ ;\n5 if\n\tinc else 2 then\nfcode-end\n";

/// The listing of its image, with its lines beside: each where a line begins, and its number elsewhere.
const ITS_LISTING: &str = r#"000000: f108069400000024  start1         \ 2: fcode-version2
000008: b603696e630800  named-token "inc" 800 \ 3: : inc 1+ ;
00000f: b7  b(:)                         \ 3:
000010: a6  1                            \ 3:
000011: 1e  +                            \ 3:
000012: c2  b(;)                         \ 3:
000013: 1000000005  b(lit) 00000005      \ 4: 5 if
000018: 140008  b?branch -> 000021       \ 4:
00001b: 0800  fcode-800 inc              \ 5:  inc else 2 then
00001d: 130005  bbranch -> 000023        \ 5:
000020: b2  b(>resolve)                  \ 5:
000021: a7  2                            \ 5:
000022: b2  b(>resolve)                  \ 5:
000023: 00  end0                         \ 6: fcode-end
"#;

/// What is listed of a source.
fn listed(alloc: Global, what: SourceList, source: &str) -> Result<Vec<u8>, Fail> {
    let mut said = Vec::new(alloc);
    let mut out = Vec::new(alloc);
    let mut file = source.as_bytes();
    let status = list(
        alloc,
        "a.fs",
        what,
        &mut file,
        &mut out,
        &mut Messages::new(&mut said),
    );
    out.extend_from_slice(&said)?;
    out.push(status.code())?;
    Ok(out)
}

/// The listing of a source's image has the source beside it.
#[test]
fn the_listing_of_a_source(rt: HostRuntime) -> Result<(), Fail> {
    let lines = listed(rt.alloc(), SourceList::Tokens, SIX_LINES)?;
    let (code, lines) = lines.split_last().unwrap_or((&1, &[]));
    assert_eq!(rt; *code, 0);
    assert_eq!(rt; lines, ITS_LISTING.as_bytes());
    Ok(())
}

/// The FCodes and names of a source's words are printed, a line each.
#[test]
fn the_symbols_of_a_source(rt: HostRuntime) -> Result<(), Fail> {
    let text = "fcode-version2 : one 1 ; 5 value two headers variable three fcode-end";
    let lines = listed(rt.alloc(), SourceList::Symbols, text)?;
    let (code, lines) = lines.split_last().unwrap_or((&1, &[]));
    assert_eq!(rt; *code, 0);
    assert_eq!(rt; lines, b"0800 one\n0801 two\n0802 three\n".as_slice());
    Ok(())
}
