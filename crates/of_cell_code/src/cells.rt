//! Cells as bytes.
ghost use Rattle.std.specs.Prelude.{◌≡◌, ◌<◌, ◌≤◌, ◌*◌, ◌+◌, ◌++◌, length, take, drop, slice_index, slice_set, IfOk};
ghost use Rattle.std.specs.List.{flat_map};
ghost use Rattle.byteorder.specs.Endian.{big_bytes};
ghost use Rattle.of_code.specs.Items.{capacity};
ghost use Rattle.of_cell_code.specs.Numbers.{numbers, zeros};

use byteorder::{BigEndian, ByteOrder};
use of_code::CAPACITY;
use std::alloc::{AllocError, Global};
use std::marker::Model;

/// How many bytes the cells take.
const BYTES: usize = 4 * CAPACITY;

/// 65,536 cells, each of four bytes, the highest first.
#[derive(Drop)]
pub struct Cells {
    bytes: Vec<u8>,
}

impl Model for Cells {
    ghost use Rattle.std.specs.Prelude.{◌≡◌, ◌*◌, ℕ, List, length};
    ghost use Rattle.of_code.specs.Items.{capacity};
    ghost use Rattle.of_cell_code.specs.Numbers.{numbers};

    ghost Value = { List ℕ };

    ghost view = { λ c. numbers c.bytes.items };

    ghost invariant = { λ c. length c.bytes.items ≡ 4 * capacity };
}

/// So many zeros.
#[tactic(auto, unfolding(crate::specs::Numbers::zeros))]
fn zeroed(alloc: Global, count: usize) -> Result<Vec<u8>, AllocError>
    ensures items { IfOk result (λ v. v.items ≡ zeros count) }
    ensures len { IfOk result (λ v. length v.items ≡ count) }
{
    let bytes = vec![in alloc; 0u8; count]?;
    Ok(bytes)
}

/// Overwrites bytes from a place on.
fn put(bytes: &mut Vec<u8>, at: usize, new: &[u8])
    requires { at + length new.now ≤ length bytes.old.items }
    ensures { bytes.new.items ≡ take at bytes.old.items ++ (new.now ++ drop (at + length new.now) bytes.old.items) }
{
    let end = at + new.len();
    bytes[at..end].copy_from_slice(new);
}

/// The bytes of the first numbers that bytes spell.
fn first(bytes: &[u8], count: usize) -> &[u8]
    requires { 4 * count ≤ length bytes.now }
    ensures { result.now ≡ flat_map (big_bytes 4) (take count (numbers bytes.now)) }
{
    &bytes[..4 * count]
}

impl Cells {
    /// The cells, all 0.
    pub fn new(alloc: Global) -> Result<Cells, AllocError>
        ensures { IfOk result (λ c. length c ≡ capacity) }
    {
        let bytes = zeroed(alloc, BYTES)?;
        Ok(Cells { bytes })
    }

    /// The value of a cell.
    #[inline(always)]
    pub fn get(&self, at: u32) -> u32
        requires { at < capacity }
        ensures { result ≡ slice_index self.now at }
    {
        BigEndian::read_u32(&self.bytes[4 * at as usize..])
    }

    /// Gives a cell another value.
    pub fn set(&mut self, at: u32, value: u32)
        requires { at < capacity }
        ensures { self.new ≡ slice_set self.old at value }
    {
        let mut new = [0; 4];
        BigEndian::write_u32(&mut new, value);
        put(&mut self.bytes, 4 * at as usize, &new);
    }

    /// The bytes of the first cells.
    pub fn bytes(&self, count: usize) -> &[u8]
        requires { count ≤ capacity }
        ensures { result.now ≡ flat_map (big_bytes 4) (take count self.now) }
    {
        first(&self.bytes, count)
    }
}
