//! What the lines of a trace say. The functions here have no contracts, so the proof of a test carries nothing of what
//! they do.
use of_asking::Answer;
use of_devices::{Board, standard_board};
use of_trace::{TraceFault, trace_answered, trace_on_board};
use std::alloc::Global;
use std::io::{Error, ErrorKind, Result as Done, Write};
use std::process::Abort;
use std::test::Fail;

/// Images in hexadecimal digits, each with a limit of steps, what answers (the standard board, nothing, or the answer
/// 7), and the console lines that are read behind it, with `|` between; then the lines of the trace, ended by `;`.
/// A line that begins with two blanks goes on with the one above.
const CASES: &str = r#"f108020a0000000da7a81e9d00|9|board|
{"step":1,"at":{"image":8,"token":"2"},"stack":[2]}
{"step":2,"at":{"image":9,"token":"3"},"stack":[2,3]}
{"step":3,"at":{"image":10,"token":"+"},"stack":[5]}
{"step":4,"at":{"image":11,"token":"."},"stack":[],"console":"5 "}
{"step":5,"at":{"image":12,"token":"end0"},"stack":[]}
;
f108020a0000000da7a81e9d00|2|board|
{"step":1,"at":{"image":8,"token":"2"},"stack":[2]}
{"step":2,"at":{"image":9,"token":"3"},"stack":[2,3]}
;
f108020a0000000da7a81e9d00|0|board|
;
f108000000000000a6ad7200|9|board|
{"step":1,"at":{"image":8,"token":"1"},"stack":[1]}
{"step":2,"at":{"image":9,"token":"here"},"stack":[1,1048576]}
{"step":3,"at":{"image":10,"token":"!"},"stack":[],"memory":[{"address":1048579,"bytes":"01"}]}
{"step":4,"at":{"image":11,"token":"end0"},"stack":[]}
;
f1080000000000001001020304ad7210fffefdfcad7200|9|board|
{"step":1,"at":{"image":8,"token":"b(lit)"},"stack":[16909060]}
{"step":2,"at":{"image":13,"token":"here"},"stack":[16909060,1048576]}
{"step":3,"at":{"image":14,"token":"!"},"stack":[],"memory":[{"address":1048576,"bytes":"01020304"}]}
{"step":4,"at":{"image":15,"token":"b(lit)"},"stack":[4294901244]}
{"step":5,"at":{"image":20,"token":"here"},"stack":[4294901244,1048576]}
{"step":6,"at":{"image":21,"token":"!"},"stack":[],"memory":[{"address":1048576,"bytes":"fffefdfc"}]}
{"step":7,"at":{"image":22,"token":"end0"},"stack":[]}
;
f10800000000000010000000088ba6497200|9|board|
{"step":1,"at":{"image":8,"token":"b(lit)"},"stack":[8]}
{"step":2,"at":{"image":13,"token":"alloc-mem"},"stack":[4194304]}
{"step":3,"at":{"image":14,"token":"1"},"stack":[4194304,1]}
{"step":4,"at":{"image":15,"token":"swap"},"stack":[1,4194304]}
{"step":5,"at":{"image":16,"token":"!"},"stack":[],"memory":[{"address":4194307,"bytes":"01"}]}
{"step":6,"at":{"image":17,"token":"end0"},"stack":[]}
;
f1080000000000001204636172640201011f012700|9|board|
{"step":1,"at":{"image":8,"token":"b(\")"},"stack":[6291466,4]}
{"step":2,"at":{"image":14,"token":"device-name"},"stack":[],"memory":[{"address":2097208,"bytes":"63617264"}],
  "properties":[{"node":"/card","name":"name","value":"6361726400"}]}
{"step":3,"at":{"image":16,"token":"new-device"},"stack":[],"nodes":["/card/"]}
{"step":4,"at":{"image":18,"token":"finish-device"},"stack":[]}
{"step":5,"at":{"image":20,"token":"end0"},"stack":[]}
;
f10800000000000010800000000230460000|9|board|
{"step":1,"at":{"image":8,"token":"b(lit)"},"stack":[2147483648]}
{"step":2,"at":{"image":13,"token":"rb@"},"asks":{"what":"read","width":1,"address":2147483648},"answer":0,"stack":[0]}
{"step":3,"at":{"image":15,"token":"drop"},"stack":[]}
{"step":4,"at":{"image":16,"token":"end0"},"stack":[]}
;
f10800000000000010800000000230460000|9|7|
{"step":1,"at":{"image":8,"token":"b(lit)"},"stack":[2147483648]}
{"step":2,"at":{"image":13,"token":"rb@"},"asks":{"what":"read","width":1,"address":2147483648},"answer":7,"stack":[7]}
{"step":3,"at":{"image":15,"token":"drop"},"stack":[]}
{"step":4,"at":{"image":16,"token":"end0"},"stack":[]}
;
f10800000000000010800000000230460000|9|nothing|
{"step":1,"at":{"image":8,"token":"b(lit)"},"stack":[2147483648]}
{"step":2,"at":{"image":13,"token":"rb@"},"asks":{"what":"read","width":1,"address":2147483648}}
;
f10800000000000010000000418f10000000ff8f100000005c8f00|9|board|
{"step":1,"at":{"image":8,"token":"b(lit)"},"stack":[65]}
{"step":2,"at":{"image":13,"token":"emit"},"stack":[],"console":"A"}
{"step":3,"at":{"image":14,"token":"b(lit)"},"stack":[255]}
{"step":4,"at":{"image":19,"token":"emit"},"stack":[],"console":"\u00ff"}
{"step":5,"at":{"image":20,"token":"b(lit)"},"stack":[92]}
{"step":6,"at":{"image":25,"token":"emit"},"stack":[],"console":"\\"}
{"step":7,"at":{"image":26,"token":"end0"},"stack":[]}
;
f108000000000000b50800b7a71ec2a6080000|99|board|
{"step":1,"at":{"image":8,"token":"new-token"},"stack":[]}
{"step":2,"at":{"image":11,"token":"b(:)"},"stack":[],"memory":[{"address":2097152,"bytes":"ffffffff"}]}
{"step":3,"at":{"image":12,"token":"2"},"stack":[]}
{"step":4,"at":{"image":13,"token":"+"},"stack":[]}
{"step":5,"at":{"image":14,"token":"b(;)"},"stack":[],"memory":[{"address":2097152,"bytes":"00000000"}]}
{"step":6,"at":{"image":15,"token":"1"},"stack":[1]}
{"step":7,"at":{"image":16,"token":"fcode-800"},"stack":[1]}
{"step":8,"at":{"word":"fcode-800","item":0},"stack":[1,2]}
{"step":9,"at":{"word":"fcode-800","item":1},"stack":[3]}
{"step":10,"at":{"word":"fcode-800","item":2},"stack":[3]}
{"step":11,"at":{"image":18,"token":"end0"},"stack":[3]}
;
f10800000000000000|99|board|: t 5 ; t .
{"step":1,"at":{"image":8,"token":"end0"},"stack":[]}
{"step":2,"at":{"text":0,"word":":"},"stack":[],"memory":[{"address":2097152,"bytes":"ffffffff"}]}
{"step":3,"at":{"text":3,"word":"5"},"stack":[]}
{"step":4,"at":{"text":5,"word":";"},"stack":[],"memory":[{"address":2097152,"bytes":"00000000"}]}
{"step":5,"at":{"text":7,"word":"t"},"stack":[]}
{"step":6,"at":{"word":"t","item":0},"stack":[5]}
{"step":7,"at":{"word":"t","item":1},"stack":[5]}
{"step":8,"at":{"text":9,"word":"."},"stack":[],"console":"5 "}
{"step":9,"at":{"text":11,"word":""},"stack":[]}
;
"#;

/// A writer that fails once so many bytes were written.
#[derive(Drop)]
struct Sheet {
    text: Vec<u8>,
    room: usize,
}

impl Write for Sheet {
    fn write(&mut self, buf: &[u8]) -> Done<usize> {
        let count = buf.len().min(self.room);
        if count < buf.len() {
            return Err(Error::from(ErrorKind::Other));
        }
        self.room -= count;
        self.text.extend_from_slice(&buf[..count])?;
        Ok(count)
    }

    fn flush(&mut self) -> Done<()> {
        Ok(())
    }
}

/// What a case says: the image, the limit, what answers, and the console line, if there is one.
#[derive(Clone, Copy)]
struct Case<'a> {
    image: &'a str,
    limit: u64,
    answers: &'a str,
    line: &'a str,
}

/// The case of fields between `|`.
fn case_of(text: &str) -> Result<Case<'_>, Fail> {
    let (image, rest) = text.split_once('|').unwrap_or((text, ""));
    let (limit, rest) = rest.split_once('|').unwrap_or((rest, ""));
    let (answers, line) = rest.split_once('|').unwrap_or((rest, ""));
    Ok(Case {
        image,
        limit: limit.parse()?,
        answers,
        line,
    })
}

/// Traces a run on the standard board; answers whether that was done.
fn is_traced_on_board(
    alloc: Global,
    image: &[u8],
    lines: &[Vec<u8>],
    limit: u64,
    sheet: &mut Sheet,
) -> Result<bool, Fail> {
    let board = Board {
        parts: standard_board(alloc)?,
    };
    let traced = trace_on_board(alloc, image, lines, &board, limit, sheet);
    Ok(traced.is_ok())
}

/// Traces the run of a case; answers whether that was done.
fn is_traced(alloc: Global, case: &Case<'_>, sheet: &mut Sheet) -> Result<bool, Fail> {
    let image = hex::decode(alloc, case.image.as_bytes())?;
    let mut lines = Vec::new(alloc);
    if !case.line.is_empty() {
        lines.push(Vec::from_slice(alloc, case.line.as_bytes())?)?;
    }
    let answers: &[Answer] = match case.answers {
        "board" => return is_traced_on_board(alloc, &image, &lines, case.limit, sheet),
        "7" => &[Answer::Value(7)],
        _ => &[],
    };
    let traced = trace_answered(alloc, &image, &lines, answers, case.limit, sheet);
    Ok(traced.is_ok())
}

/// The trace of a case on a sheet with so much room, and whether the run was traced to its end.
fn trace_of(alloc: Global, case: &Case<'_>, room: usize) -> Result<(Vec<u8>, bool), Fail> {
    let mut sheet = Sheet {
        text: Vec::new(alloc),
        room,
    };
    let done = is_traced(alloc, case, &mut sheet)?;
    Ok((sheet.text, done))
}

/// Sees that the trace of a case is the one that it says.
fn holds<R: Abort>(rt: &R, alloc: Global, text: &str) -> Result<(), Fail> {
    let (head, wanted) = text.split_once('\n').unwrap_or((text, ""));
    let case = case_of(head)?;
    let (trace, done) = trace_of(alloc, &case, 99_999)?;
    assert!(rt; done, "{head}");
    let mut whole = String::new(alloc);
    for part in wanted.split("\n  ") {
        whole.push_str(part)?;
    }
    assert_eq!(rt;
        std::str::from_utf8(&trace).unwrap_or("no text"),
        whole.as_str(),
        "{head}"
    );
    Ok(())
}

#[test]
fn traces(rt: HostRuntime) -> Result<(), Fail> {
    for text in CASES.split_terminator(";\n") {
        holds(&rt, rt.alloc(), text)?;
    }
    Ok(())
}

/// A line that can't be written ends the trace.
#[test]
fn a_trace_without_room(rt: HostRuntime) -> Result<(), Fail> {
    let case = case_of("f108020a0000000da7a81e9d00|9|nothing|")?;
    let (trace, done) = trace_of(rt.alloc(), &case, 60)?;
    assert!(rt; !done);
    let wanted = b"{\"step\":1,\"at\":{\"image\":8,\"token\":\"2\"},\"stack\":[2]}\n".as_slice();
    assert_eq!(rt; trace.as_slice(), wanted);
    Ok(())
}

/// Whether an image is refused.
fn is_refused(alloc: Global, image: &[u8]) -> bool {
    let mut sheet = Sheet {
        text: Vec::new(alloc),
        room: 99,
    };
    let traced = trace_answered(alloc, image, &[], &[], 9, &mut sheet);
    matches!(traced, Err(TraceFault::Refused(_)))
}

#[test]
fn a_refused_image(rt: HostRuntime) {
    assert!(rt; is_refused(rt.alloc(), b"\xff\0\0\0\0\0\0\0"));
}
