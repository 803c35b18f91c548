//! Sources as lines of text, and their images.

use of_margin::{beside_lines, lines_have_margins};
use of_meaning::body_of_nest;
use of_source::{Place, SourceFault, item_places, parse, place_in};
use of_tok::{
    TokFault, header_is_the_sum, image_has_tokens, image_origins, nests_end_at_their_places,
    passes_give_tokens, tokenize, tokens_have_origins,
};
use std::alloc::{AllocError, Global};
use std::test::Fail;

/// Sources, and behind a bar the bytes of their images.
const IMAGES: &str = "\
fcode-version2 headerless : t begin dup while 1- dup 2 <> while repeat then ; 5 t . fcode-end\
|f108097e00000028b50800b7b14714000fa61f47a73d14000613fff3b2b2c2100000000508009d00
fcode-version2 \" card\" device-name : add3 3 + ; 2 add3 . fcode-end\
|f108075c000000211204636172640201b604616464330800b7a81ec2a708009d00
fcode-version1 headerless : t if 1 else 2 then ; 0 t . fcode-end\
|fd0806610000001ab50800b71405a61304b2a7b2c2a508009d00
fcode-version2 headerless : t if 1 else 2 then ; 0 t . fcode-end\
|f10806640000001cb50800b7140007a6130005b2a7b2c2a508009d00
fcode-version2 3 0 do i . loop fcode-end|f108043200000013a8a5170007199d15fffd00
fcode-version1 3 0 ?do 1 +loop fcode-end|fd08032300000010a8a51804a616fe00
fcode-version2 1 case 0 of 2 endof 1 of 3 endof endcase fcode-end\
|f10806a70000001ca6c4a51c0006a7c6000ba61c0006a8c60003c500
fcode-version2 begin 0 until fcode-end|f10803670000000eb1a514fffe00
fcode-version2 begin again fcode-end|f10802c20000000db113ffff00
fcode-version2 1 0 do leave loop fcode-end|f108039500000012a6a51700061b15fffe00
fcode-version2 external : a ; fcode-end|f10802ad00000010ca01610800b7c200
fcode-version1 offset16 if then fcode-end|fd0801950000000ecc140003b200
fcode-version2 new-device finish-device fcode-end|f10800480000000d011f012700
";

/// Sources in which `$` ends a line, `@` is a string of 200 bytes and `a_b~3` stands for `a b a b a b`, and
/// behind a bar the length of their images, or what is wrong with them, with the
/// line and the column.
const OUTCOMES: &str = "\
fcode-version1 : t if noop~125 then ; fcode-end|144 bytes
fcode-version1 $ : t $ if noop~126 then ; fcode-end|3:2: offset too long
fcode-version1 offset16 : t if noop~126 then ; fcode-end|147 bytes
fcode-version1 begin noop~127 again fcode-end|139 bytes
fcode-version1 begin $ noop~128 again fcode-end|2:642: offset too long
fcode-version2 if noop~32764 then fcode-end|32777 bytes
fcode-version2 if $ noop~32765 then fcode-end|1:16: offset too long
fcode-version1 $ do $ if noop~126 then loop fcode-end|2:2: offset too long
fcode-version2 variable_v~2048 fcode-end|12297 bytes
fcode-version2 variable_v~2049 fcode-end|more than 2048 definitions
fcode-version2 variable_v~2049 @~1298 fcode-end|more than 2048 definitions
fcode-version2 @~1297 noop~141 fcode-end|262144 bytes
fcode-version2 @~1297 noop~142 fcode-end|image over 262144 bytes
fcode-version1 if @~1298 then fcode-end|image over 262144 bytes
fcode-version2 $ if fcode-end|2:2: unclosed
";

/// Sources alike, and the headers of their images: the first has 8 tokens with the bytes 12 c8 and 200 times 2d, whose
/// sum, 73,744, is 2010 in sixteen bits.
const HEADERS: &str = "\
fcode-version2 @~8 fcode-end|f108201000000659
fcode-version1 fcode-end|fd08000000000009
";

/// A string of 200 bytes.
const STRING: &str = "\
\" ----------------------------------------------------------------------------------------------------\
----------------------------------------------------------------------------------------------------\"";

/// A text with its words written out.
fn written_out(alloc: Global, words: &str) -> Result<String, Fail> {
    let mut text = String::new(alloc);
    for word in words.split(' ') {
        let (phrase, count) = word.split_once('~').unwrap_or((word, "1"));
        for _ in 0..count.parse::<u32>().unwrap_or(0) {
            for part in phrase.split('_') {
                text.push_str(match part {
                    "$" => "\n",
                    "@" => STRING,
                    _ => part,
                })?;
                text.push(' ')?;
            }
        }
    }
    Ok(text)
}

/// The bytes of an image in hexadecimal digits.
fn digits(alloc: Global, image: &[u8]) -> Result<String, AllocError> {
    let mut text = String::new(alloc);
    for byte in image {
        text.push_str(&format!(in alloc; "{byte:02x}")?)?;
    }
    Ok(text)
}

/// What is wrong at a position of a text, with the line and the column.
fn at(alloc: Global, text: &str, position: usize, wrong: &str) -> Result<String, AllocError> {
    let Place { line, column } = place_in(text.as_bytes(), position);
    format!(in alloc; "{line}:{column}: {wrong}")
}

/// The image of a source, or what is wrong with it.
fn image_of(alloc: Global, text: &str) -> Result<Result<Vec<u8>, String>, AllocError> {
    let source = match parse(alloc, text.as_bytes()) {
        Ok(source) => source,
        Err(SourceFault::Unclosed(position)) => {
            return Ok(Err(at(alloc, text, position, "unclosed")?));
        }
        Err(fault) => return Ok(Err(format!(in alloc; "{fault}")?)),
    };
    match tokenize(alloc, &source) {
        Ok(image) => Ok(Ok(image)),
        Err(TokFault::OffsetTooLong(position)) => {
            Ok(Err(at(alloc, text, position, "offset too long")?))
        }
        Err(fault) => Ok(Err(format!(in alloc; "{fault}")?)),
    }
}

/// The image of a source in hexadecimal digits, or what is wrong with it.
fn shown(alloc: Global, text: &str) -> Result<String, AllocError> {
    match image_of(alloc, text)? {
        Ok(image) => digits(alloc, &image),
        Err(fault) => Ok(fault),
    }
}

/// The length of the image of a source, or what is wrong with it.
fn outcome(alloc: Global, text: &str) -> Result<String, AllocError> {
    match image_of(alloc, text)? {
        Ok(image) => format!(in alloc; "{} bytes", image.len()),
        Err(fault) => Ok(fault),
    }
}

#[test]
fn images(rt: HostRuntime) -> Result<(), Fail> {
    for line in IMAGES.lines() {
        let (source, wanted) = line.split_once('|').unwrap_or(("", ""));
        assert_eq!(rt; shown(rt.alloc(), source)?.as_str(), wanted, "{source}");
    }
    Ok(())
}

#[test]
fn outcomes(rt: HostRuntime) -> Result<(), Fail> {
    for line in OUTCOMES.lines() {
        let (words, wanted) = line.split_once('|').unwrap_or(("", ""));
        let text = written_out(rt.alloc(), words)?;
        assert_eq!(rt; outcome(rt.alloc(), &text)?.as_str(), wanted, "{words}");
    }
    Ok(())
}

#[test]
fn headers(rt: HostRuntime) -> Result<(), Fail> {
    for line in HEADERS.lines() {
        let (words, wanted) = line.split_once('|').unwrap_or(("", ""));
        let text = written_out(rt.alloc(), words)?;
        let image = shown(rt.alloc(), &text)?;
        assert!(rt; image.starts_with(wanted), "{words}: {image}");
    }
    Ok(())
}

/// Sources with the positions of the words from which their headers and tokens come.
const ORIGINS: &str = "\
fcode-version2 fcode-end|0 15
fcode-version2 : t 1+ ; t fcode-end|0 15 15 19 19 22 24 26
fcode-version2 5 value t 0 if 1 else t then fcode-end|0 15 17 17 25 27 30 32 32 37 39 44
";

#[test]
fn origins(rt: HostRuntime) -> Result<(), Fail> {
    let alloc = rt.alloc();
    for line in ORIGINS.lines() {
        let (text, wanted) = line.split_once('|').unwrap_or(("", ""));
        let source = parse(alloc, text.as_bytes())?;
        let places = item_places(alloc, text.as_bytes())?;
        let mut shown = String::new(alloc);
        for place in image_origins(alloc, &source, &places)?.as_slice() {
            if !shown.is_empty() {
                shown.push(' ')?;
            }
            shown.push_str(&format!(in alloc; "{place}")?)?;
        }
        assert_eq!(rt; shown.as_str(), wanted, "{text}");
    }
    Ok(())
}

/// The lines of a text beside a listing: a line that was shown is shown again behind another, and a line of the listing
/// without a position has none.
#[test]
fn margins(rt: HostRuntime) -> Result<(), Fail> {
    let listing = b"one\ntwo\nthree\nfour\n";
    let lines = beside_lines(rt.alloc(), b"ab\nc\td\n", &[3, 4, 0], listing)?;
    let wanted = "\
one                                      \\ 2: c d
two                                      \\ 2:
three                                    \\ 1: ab
four
";
    assert_eq!(rt; lines.as_slice(), wanted.as_bytes());
    Ok(())
}

#[test]
fn laws(_rt: HostRuntime) -> Result<(), Fail> {
    passes_give_tokens();
    image_has_tokens();
    nests_end_at_their_places();
    header_is_the_sum();
    tokens_have_origins();
    lines_have_margins();
    body_of_nest();
    Ok(())
}
