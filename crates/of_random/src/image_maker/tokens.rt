//! The bytes of an image, token by token.
use std::alloc::{AllocError, Global};

/// How many bytes stand before the first token.
const HEADER_LENGTH: usize = 8;

/// An image that is written.
#[derive(Drop)]
pub(super) struct Tokens {
    bytes: Vec<u8>,
    has_short: bool,
}

/// The lowest two bytes of a number.
fn low_bytes(number: usize) -> [u8; 2] {
    ((number & 0xffff) as u16).to_be_bytes()
}

impl Tokens {
    /// A header with this start byte, whose sum and length are filled in later; its offsets have one byte behind 0xFD.
    pub(super) fn new(alloc: Global, start: u8) -> Result<Tokens, AllocError> {
        let bytes = [start, 8, 0, 0, 0, 0, 0, 0].to_vec(alloc)?;
        Ok(Tokens {
            bytes,
            has_short: start == 0xfd,
        })
    }

    /// The position behind what is written.
    pub(super) fn position(&self) -> usize {
        self.bytes.len()
    }

    /// How many bytes an offset has.
    fn offset_length(&self) -> usize {
        if self.has_short { 1 } else { 2 }
    }

    /// Writes an FCode.
    pub(super) fn put(&mut self, code: u16) -> Result<(), AllocError> {
        let [high, low] = code.to_be_bytes();
        if high > 0 {
            self.bytes.push(high)?;
        }
        self.bytes.push(low)?;
        Ok(())
    }

    /// Writes FCodes.
    pub(super) fn put_all(&mut self, codes: &[u16]) -> Result<(), AllocError> {
        for code in codes {
            self.put(*code)?;
        }
        Ok(())
    }

    /// Writes a literal.
    pub(super) fn put_literal(&mut self, number: u32) -> Result<(), AllocError> {
        self.put(0x010)?;
        self.bytes.extend_from_slice(&number.to_be_bytes())
    }

    /// Writes the length and the bytes of a text, of at most 255 bytes.
    pub(super) fn put_text(&mut self, text: &[u8]) -> Result<(), AllocError> {
        let [_, length] = low_bytes(text.len());
        self.bytes.push(length)?;
        self.bytes.extend_from_slice(text)
    }

    /// Writes a string.
    pub(super) fn put_string(&mut self, text: &[u8]) -> Result<(), AllocError> {
        self.put(0x012)?;
        self.put_text(text)
    }

    /// `offset16`: offsets have two bytes from here on.
    pub(super) fn put_offset16(&mut self) -> Result<(), AllocError> {
        self.has_short = false;
        self.put(0x0cc)
    }

    /// Writes an FCode with an offset that leads nowhere yet; answers the place of the offset.
    pub(super) fn put_branch(&mut self, code: u16) -> Result<usize, AllocError> {
        self.put(code)?;
        let place = self.position();
        for _ in 0..self.offset_length() {
            self.bytes.push(0)?;
        }
        Ok(place)
    }

    /// Writes an FCode with an offset that leads to a position.
    pub(super) fn put_branch_to(&mut self, code: u16, target: usize) -> Result<(), AllocError> {
        let place = self.put_branch(code)?;
        self.aim_at(place, target);
        Ok(())
    }

    /// Lets the offset at a place lead behind what is written.
    pub(super) fn aim(&mut self, place: usize) {
        let target = self.position();
        self.aim_at(place, target);
    }

    /// Lets the offset at a place lead to a position.
    fn aim_at(&mut self, place: usize, target: usize) {
        let [high, low] = low_bytes(target.wrapping_sub(place));
        if self.has_short {
            self.set(place, low);
        } else {
            self.set(place, high);
            self.set(place.wrapping_add(1), low);
        }
    }

    /// Sets a byte, if it is there.
    fn set(&mut self, place: usize, byte: u8) {
        if let Some(old) = self.bytes.get_mut(place) {
            *old = byte;
        }
    }

    /// The image, with its sum and length in its header, or with others.
    pub(super) fn into_image(mut self, is_true: bool) -> Vec<u8> {
        let mut sum = 0usize;
        for byte in self.bytes.iter().skip(HEADER_LENGTH) {
            sum = sum.wrapping_add(usize::from(*byte));
        }
        if is_true {
            let [high, low] = low_bytes(sum);
            self.set(2, high);
            self.set(3, low);
            let [high, low] = low_bytes(self.position());
            self.set(6, high);
            self.set(7, low);
        }
        self.bytes
    }
}
