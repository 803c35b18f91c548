//! Images of which one byte is changed or that are cut: their runs end, and leave the same over either store of code.
use crate::cuts::CUTS;
use crate::shared::bytes_of;
use crate::stores::{Left, left_over_cells, left_over_list};
use crate::tables::{Cases, check, halves};
use std::alloc::Global;
use std::test::Fail;

/// How many steps the runs make at most.
const LIMIT: u64 = 600;

/// What each byte is set to.
const VALUES: [u8; 4] = [0x00, 0x7f, 0x80, 0xff];

/// Appends what two runs of an image left, if they differ or if one hasn't ended.
fn push_runs(wrongs: &mut String, case: usize, list: &Left, cells: &Left) -> Result<(), Fail> {
    if list.seen.as_str() != cells.seen.as_str() || !list.has_ended || !cells.has_ended {
        write!(wrongs, "[{case}] {} and {} ", list.seen, cells.seen)?;
    }
    Ok(())
}

/// Appends what is wrong with the runs of an image.
fn push_image(alloc: Global, wrongs: &mut String, case: usize, image: &[u8]) -> Result<(), Fail> {
    let list = left_over_list(alloc, image, LIMIT)?;
    let cells = left_over_cells(alloc, image, LIMIT)?;
    push_runs(wrongs, case, &list, &cells)
}

/// An image with another byte at a place.
fn changed(alloc: Global, image: &[u8], place: usize, value: u8) -> Result<Vec<u8>, Fail> {
    let mut other = Vec::from_slice(alloc, image)?;
    if let Some(byte) = other.get_mut(place) {
        *byte = value;
    }
    Ok(other)
}

/// Appends what is wrong with the runs of an image with other bytes at a place.
fn push_changes(
    alloc: Global,
    wrongs: &mut String,
    image: &[u8],
    place: usize,
) -> Result<(), Fail> {
    for value in VALUES {
        let other = changed(alloc, image, place, value)?;
        push_image(alloc, wrongs, place, &other)?;
    }
    Ok(())
}

/// The image of a line.
fn image_of(alloc: Global, line: &str) -> Result<Vec<u8>, Fail> {
    let (digits, _) = halves(line);
    bytes_of(alloc, digits)
}

/// Images with one byte changed.
struct ChangedCases;

impl Cases for ChangedCases {
    fn wrongs(alloc: Global, line: &str) -> Result<String, Fail> {
        let image = image_of(alloc, line)?;
        let mut wrongs = String::new(alloc);
        for place in 0..image.len() {
            push_changes(alloc, &mut wrongs, &image, place)?;
        }
        Ok(wrongs)
    }
}

#[test]
fn bytes_are_changed(rt: HostRuntime) -> Result<(), Fail> {
    check::<ChangedCases, _>(&rt, rt.alloc(), CUTS)
}

/// Images cut at every length.
struct CutCases;

impl Cases for CutCases {
    fn wrongs(alloc: Global, line: &str) -> Result<String, Fail> {
        let image = image_of(alloc, line)?;
        let mut wrongs = String::new(alloc);
        for length in 0..image.len() {
            push_image(alloc, &mut wrongs, length, &image[..length])?;
        }
        Ok(wrongs)
    }
}

#[test]
fn images_are_cut(rt: HostRuntime) -> Result<(), Fail> {
    check::<CutCases, _>(&rt, rt.alloc(), CUTS)
}
