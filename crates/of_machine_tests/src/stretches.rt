//! Runs that are made stretch by stretch: they come to what is made in one go.
use crate::questions::left;
use crate::racks::rack_of;
use crate::rows::{Rows, check, halves};
use crate::runs::text_of;
use crate::shared::{bytes_of, image_of, lend};
use of_devices::Rack;
use of_machine::{End, ScriptMachine, begin_run, go_with, stretches_join};
use std::alloc::Global;
use std::test::Fail;

/// The run of an image in two stretches, of which the first makes so many steps at most.
fn in_two(
    alloc: Global,
    image: &[u8],
    first: u64,
    limit: u64,
) -> Result<(ScriptMachine, End), Fail> {
    let mut run = begin_run(alloc, image, &[], &[], &[])?;
    let mut end = run.go(first)?;
    if end == End::LimitReached && run.machine().steps() <= limit {
        end = run.go(limit)?;
    }
    Ok((run.into_machine(), end))
}

/// Whole images, how many steps each of two stretches makes up to at most, and behind them the steps that are made in
/// all and the console: of an image that ends there or before, of one that goes on, and of one that asks.
const ROWS: &str = "\
f108020a0000000da7a81e9d00|0|9|5 5 
f108020a0000000da7a81e9d00|3|9|5 5 
f108020a0000000da7a81e9d00|5|9|5 5 
f108020a0000000da7a81e9d00|9|9|5 5 
f108020a0000000da7a81e9d00|2|4|4+ 5 
f108016c0000000ca6a52100|1|9|3 fault -10: division by zero$
f1080000000000008e9d00|1|9|0? 
";

/// Images without devices.
struct StretchRows;

impl Rows for StretchRows {
    fn given<'a>(alloc: Global, line: &'a str) -> Result<(String, &'a str), Fail> {
        let (image, rest) = halves(line);
        let (first, rest) = halves(rest);
        let (limit, wanted) = halves(rest);
        let image = bytes_of(alloc, image)?;
        let made = in_two(alloc, &image, first.parse()?, limit.parse()?)?;
        let given = lend(made, |run| text_of(alloc, &run.0, run.1))?;
        Ok((given, wanted))
    }
}

#[test]
fn stretches(rt: HostRuntime) -> Result<(), Fail> {
    stretches_join();
    check::<StretchRows, _>(&rt, rt.alloc(), ROWS)
}

/// The run of an image on the devices of a rack in two stretches.
fn in_two_with(
    alloc: Global,
    image: &[u8],
    rack: &mut Rack,
    first: u64,
    limit: u64,
) -> Result<(ScriptMachine, End), Fail> {
    let mut run = begin_run(alloc, image, &[], &[], &[])?;
    let mut end = go_with(&mut run, rack, first)?;
    if end == End::LimitReached && run.machine().steps() <= limit {
        end = go_with(&mut run, rack, limit)?;
    }
    Ok((run.into_machine(), end))
}

/// Devices, tokens, how many steps each of two stretches makes up to at most, and what the run leaves.
const DEVICES: &str = "\
clock|0125 a8 0125 00|0|4|4 done 0||get-msecs, get-msecs|0 3 1
clock|0125 a8 0125 00|1|4|4 done 0||get-msecs, get-msecs|0 3 1
clock|0125 a8 0125 00|3|4|4 done 0||get-msecs, get-msecs|0 3 1
clock|0125 a8 0125 00|1|2|2 limit 2||get-msecs|0 3
keys|8d 8e 8d 8e 8d 8e 00|4|99|7 done 0||key?, key, key?, key, key?, key|ffffffff 41 ffffffff 42 0 0
broken|1080000000 11 0234 0217 00|2|99|4 done 0||read 4 80000000|80000000 fffffefe
";

/// Images on devices.
struct DeviceStretches;

impl Rows for DeviceStretches {
    fn given<'a>(alloc: Global, line: &'a str) -> Result<(String, &'a str), Fail> {
        let (devices, rest) = halves(line);
        let (tokens, rest) = halves(rest);
        let (first, rest) = halves(rest);
        let (limit, wanted) = halves(rest);
        let image = image_of(alloc, tokens)?;
        let mut rack = rack_of(alloc, devices)?;
        let made = in_two_with(alloc, &image, &mut rack, first.parse()?, limit.parse()?)?;
        let given = lend(made, |run| left(alloc, &run.0, run.1))?;
        Ok((given, wanted))
    }
}

#[test]
fn stretches_on_devices(rt: HostRuntime) -> Result<(), Fail> {
    check::<DeviceStretches, _>(&rt, rt.alloc(), DEVICES)
}
