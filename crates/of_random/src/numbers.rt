//! Numbers that a seed determines.

/// A sequence of numbers: each is a mix of the bits of a counter.
#[derive(Clone, Copy)]
pub struct Numbers {
    counter: u64,
}

impl Numbers {
    /// The sequence of a seed.
    pub fn new(seed: u64) -> Numbers {
        Numbers { counter: seed }
    }

    /// The next number.
    fn next(&mut self) -> u64 {
        self.counter = self.counter.wrapping_add(0x9e37_79b9_7f4a_7c15);
        let first = (self.counter ^ (self.counter >> 30)).wrapping_mul(0xbf58_476d_1ce4_e5b9);
        let second = (first ^ (first >> 27)).wrapping_mul(0x94d0_49bb_1331_11eb);
        second ^ (second >> 31)
    }

    /// A number below this one, or 0.
    pub fn below(&mut self, bound: usize) -> usize {
        let bound = bound.max(1) as u64;
        (self.next() % bound) as usize
    }

    /// Whether the one of so many chances came.
    pub fn one_in(&mut self, chances: usize) -> bool {
        self.below(chances) == 0
    }

    /// Any byte.
    pub fn byte(&mut self) -> u8 {
        (self.next() & 0xff) as u8
    }

    /// Any number of 32 bits.
    pub fn word(&mut self) -> u32 {
        (self.next() & 0xffff_ffff) as u32
    }

    /// One of these, or what stands for none.
    pub fn one_of<T: Copy + Drop>(&mut self, list: &[T], none: T) -> T {
        let place = self.below(list.len());
        list.get(place).copied().unwrap_or(none)
    }

    /// A number of a cell: mostly a small one, or one at the edge of a range.
    pub fn cell(&mut self) -> u32 {
        match self.below(8) {
            0..=3 => (self.next() & 0xf) as u32,
            4 => u32::from(self.byte()),
            5 => self.one_of(&EDGES, 0),
            6 => self.one_of(&ADDRESSES, 0),
            _ => self.word(),
        }
    }

    /// An address, mostly near the beginning of a region.
    pub fn address(&mut self) -> u32 {
        let offset = (self.next() & 0x3f) as u32;
        let base = self.one_of(&ADDRESSES, 0);
        if self.one_in(2) {
            base.wrapping_add(offset & 0x3c)
        } else {
            base.wrapping_add(offset)
        }
    }
}

/// Numbers at the edges of ranges.
const EDGES: [u32; 8] = [
    0xffff_ffff,
    0x8000_0000,
    0x7fff_ffff,
    0xffff,
    0x1_0000,
    0xffff_fffe,
    0x100,
    0x1f,
];

/// Where regions of the board begin: data, images, strings, devices and what isn't there.
const ADDRESSES: [u32; 8] = [
    0x10_0000,
    0x10_0000,
    0x10_0000,
    0x60_0000,
    0x20_0000,
    0x8000_0000,
    0x10_0040,
    0,
];
