ghost use Rattle.std.specs.Prelude.{◌≡◌, ◌+◌, ◌≤◌, true, drop, length, IfOk};
ghost use Rattle.byteorder.specs.Endian.{big_bytes, big_number};
ghost use Rattle.of_asking.specs.Questions.{fits};
ghost use Rattle.of_memory.specs.DataSpace.{splice};
ghost use Rattle.of_memory.specs.Width.{bytes_in};
ghost use Rattle.of_devices.specs.Memories.{addresses, memory_after, memory_answer, memory_with, with_number};
ghost use Rattle.of_devices.specs.Ranges.{contains, range_of, stays_in};

use crate::rack::nothing;
use crate::range::{AddressRange, accessed};
use byteorder::{BigEndian, ByteOrder};
use of_asking::{Answer, Query};
use of_cells::Cell;
use of_memory::Width;
use std::alloc::{AllocError, Global};
use std::marker::Model;

/// Device memory: bytes from an address on. Numbers stand in it with the highest byte first.
#[derive(Drop)]
pub struct DeviceMemory {
    address: Cell,
    bytes: Vec<u8>,
}

impl Model for DeviceMemory {
    ghost use Rattle.of_devices.specs.Stored.{Stored};

    ghost Value = { Stored };

    ghost view = { λ m. record { address = m.address; bytes = m.bytes.items } };
}

/// The number that some bytes begin with, the highest byte first.
fn number_at(bytes: &[u8], width: Width) -> u32
    requires { bytes_in width ≤ length bytes.now }
    ensures number { result ≡ big_number (bytes_in width) bytes.now }
    ensures fits { fits (Query.Read width (record { 0 = 0 })) (Answer.Value result) ≡ true }
{
    match width {
        Width::One => u32::from(bytes[0]),
        Width::Two => u32::from(BigEndian::read_u16(bytes)),
        Width::Four => BigEndian::read_u32(bytes),
    }
}

/// Puts the low bytes of a number at a place, the highest first.
fn put(bytes: &mut [u8], at: usize, width: Width, x: Cell)
    requires { at + bytes_in width ≤ length bytes.old }
    ensures { bytes.new ≡ splice bytes.old at (big_bytes (bytes_in width) x.0) }
{
    match width {
        Width::One => bytes[at] = x.low_byte().0 as u8,
        Width::Two => BigEndian::write_u16(&mut bytes[at..], x.low_half().0 as u16),
        Width::Four => BigEndian::write_u32(&mut bytes[at..], x.0),
    }
}

impl DeviceMemory {
    /// Memory of `size` bytes from `address` on: the first ones as given, and the others 0.
    ///
    /// A refused allocation is the error.
    pub fn new(
        alloc: Global,
        address: Cell,
        size: usize,
        first: &[u8],
    ) -> Result<DeviceMemory, AllocError>
        requires { length first.now ≤ size }
        ensures { IfOk result (λ m. m ≡ memory_with address size first.now) }
    {
        let mut bytes = Vec::from_slice(alloc, first)?;
        bytes.resize(size, 0)?;
        Ok(DeviceMemory { address, bytes })
    }

    /// Memory with the same bytes at the same addresses.
    ///
    /// A refused allocation is the error.
    pub(crate) fn copy(&self, alloc: Global) -> Result<DeviceMemory, AllocError>
        ensures { IfOk result (λ m. m ≡ self.now) }
    {
        Ok(DeviceMemory {
            address: self.address,
            bytes: Vec::from_slice(alloc, &self.bytes)?,
        })
    }

    /// Its addresses.
    fn addresses(&self) -> AddressRange
        ensures { result ≡ addresses self.now }
    {
        AddressRange {
            address: self.address,
            length: self.bytes.len(),
        }
    }

    /// Whether it takes a question: one that accesses its addresses alone.
    pub(crate) fn takes(&self, query: Query) -> bool
        ensures { result ≡ stays_in (addresses self.now) query }
    {
        match accessed(query) {
            Some(range) => self.addresses().contains(range),
            None => false,
        }
    }

    /// The number at an address.
    fn read(&self, width: Width, address: Cell) -> Answer
        requires { contains (addresses self.now) (range_of width address) ≡ true }
        ensures answer { result ≡ memory_answer self.now (Query.Read width address) }
        ensures fits { fits (Query.Read width address) result ≡ true }
    {
        let at = (address.0 - self.address.0) as usize;
        Answer::Value(number_at(&self.bytes[at..], width))
    }

    /// Stores a number at an address.
    fn write(&mut self, width: Width, address: Cell, x: Cell) -> Answer
        requires { contains (addresses self.old) (range_of width address) ≡ true }
        ensures answer { result ≡ Answer.Done }
        ensures memory { self.new ≡ with_number width address x self.old }
    {
        let at = (address.0 - self.address.0) as usize;
        put(&mut self.bytes, at, width, x);
        Answer::Done
    }

    /// Its answer to a question that it takes.
    pub(crate) fn answer(&mut self, query: Query) -> Answer
        requires { stays_in (addresses self.old) query ≡ true }
        ensures answer { result ≡ memory_answer self.old query }
        ensures fits { fits query result ≡ true }
        ensures memory { self.new ≡ memory_after self.old query }
    {
        match query {
            Query::Read(width, address) => self.read(width, address),
            Query::Write(width, address, x) => self.write(width, address, x),
            Query::Peek(width, address) => self.read(width, address),
            Query::Poke(width, address, x) => self.write(width, address, x),
            Query::Key => nothing(query),
            Query::KeyReady => nothing(query),
            Query::Milliseconds => nothing(query),
            Query::Wait(_) => nothing(query),
        }
    }
}
