//! Runs with the device tree behind what they print.

use crate::doubles::{reader_of, without_lines};
use crate::shared::{Outputs, answered, blank_outputs, lend, printed};
use crate::tables::{Rows, check, halves, number, replaced};
use of_arguments::{Listings, Outside as Asked, Request};
use of_runs::Answerer;
use std::alloc::Global;
use std::test::Fail;

/// Images in hexadecimal digits, how many bytes can be written, the number of the status, and what is printed, with `;`
/// for a newline: an empty program; one that prints `5 ` and gives its node the name `card`; one that throws; one that
/// sets a property to a cell; one that makes a node below its own.
const RUNS: &str = "\
f10800000000000000|9999|0|/;name \"board\";/packages;name \"packages\";/slot;name \"slot\";
f108075c000000211204636172640201b604616464330800b7a81ec2a708009d00|9999|0|\
5 ;/;name \"board\";/packages;name \"packages\";/card;name \"card\";
f1080000000000004600|9999|0|fault -4: stack underflow;/;name \"board\";/packages;name \"packages\";/slot;name \"slot\";
f108000000000000a60111120372656701100000|9999|0|\
/;name \"board\";/packages;name \"packages\";/slot;name \"slot\";reg 00000001;
f108000000000000011f1204646973630201012700|9999|0|\
/;name \"board\";/packages;name \"packages\";/slot;name \"slot\";/slot/disc;name \"disc\";
f10800000000000000|3|1|/;n
f108075c000000211204636172640201b604616464330800b7a81ec2a708009d00|3|1|5 ;
f10800000000000000|0|1|";

/// Runs an image with the tree behind it, and gives the number of the status.
fn code_of(alloc: Global, image: &str, outputs: &mut Outputs) -> u8 {
    let mut file = reader_of(image.as_bytes(), 9999);
    let request = Request::Run {
        image: "a.hex",
        lines: None,
        outside: Asked::Standard,
        limit: 99,
        listings: Listings {
            tree: true,
            words: false,
            see: None,
            state: false,
        },
        explain: false,
        pci: false,
        trace: None,
        strict: false,
    };
    let outside = without_lines(Answerer::Answers(&[]));
    let Outputs { out, errors } = outputs;
    answered(alloc, request, outside, &mut file, out, errors)
}

/// What an image with the tree behind it prints, and the number of its status.
fn printed_by(alloc: Global, image: &str, outputs: &mut Outputs) -> Result<String, Fail> {
    let code = code_of(alloc, image, outputs);
    printed(alloc, code, outputs)
}

/// Images with the tree behind them.
struct TreeRows;

impl Rows for TreeRows {
    fn given(alloc: Global, line: &str) -> Result<(String, String), Fail> {
        let (image, rest) = halves(line, '|');
        let (room, wanted) = halves(rest, '|');
        let printed = lend(
            blank_outputs(alloc, number(room)?),
            |outputs| printed_by(alloc, image, outputs),
        )?;
        Ok((printed, replaced(alloc, wanted, ";", "\n")?))
    }
}

#[test]
fn trees_are_printed(rt: HostRuntime) -> Result<(), Fail> {
    check::<TreeRows, _>(&rt, rt.alloc(), RUNS)
}
