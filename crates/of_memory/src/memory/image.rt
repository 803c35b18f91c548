ghost use Rattle.std.specs.Prelude.{◌≡◌, ◌≤◌, length};
ghost use Rattle.of_memory.specs.Regions.{image_limit};
ghost use Rattle.of_cells.specs.Outcomes.{Answers};
ghost use Rattle.of_memory.specs.Outcomes.{TakesNoMemory, address_of};
ghost use Rattle.of_memory.specs.Growth.{image_room, image_fits, image_pushed, image_pushed_from, image_popped};
ghost use Rattle.of_memory.specs.Images.{latest_start, latest_image};

use super::Memory;
use crate::fault::MemFault;
use crate::images::LIMIT;
use crate::regions::{IMAGE_LIMIT, image_place, place};
use of_cells::Cell;

impl Memory {
    /// How many bytes of the image region are free.
    pub fn image_room(&self) -> Cell
        ensures { result.0 ≡ image_room self.now }
    {
        Cell(IMAGE_LIMIT - self.images.free())
    }

    /// Whether an image of `len` bytes finds room: it fits into what is free, and fewer than 256
    /// images run.
    pub fn image_fits(&self, len: usize) -> bool
        ensures { result ≡ image_fits self.now len }
    {
        len <= (IMAGE_LIMIT - self.images.free()) as usize && self.images.count() < LIMIT
    }

    /// Where the latest image begins; the beginning of the region where none runs.
    #[inline]
    pub fn latest_start(&self) -> Cell
        ensures value { result.0 ≡ latest_start self.now.images }
        ensures fits { result.0 ≤ image_limit }
    {
        Cell(self.images.latest_start())
    }

    /// The bytes of the latest image; none where none runs.
    #[inline]
    #[tactic(auto, using(crate::proofs::Latest::latest_stands))]
    pub fn latest_image(&self) -> &[u8]
        ensures value { result.now ≡ latest_image self.now }
        ensures fits { length result.now ≤ 0x4_0000 }
    {
        let start = self.images.latest_start();
        let at = image_place(start);
        &self.bytes[at..at + (self.images.free() - start) as usize]
    }

    /// Copies an image into the image region after those that run, and answers its address.
    ///
    /// Full, if it doesn't fit, or 256 images run.
    pub fn image_push(&mut self, image: &[u8]) -> Result<Cell, MemFault>
        ensures value { Answers (image_pushed self.old image.now) self.old self.new (address_of result) }
        ensures memory { TakesNoMemory result }
    {
        if !self.image_fits(image.len()) {
            return Err(MemFault::Full);
        }
        let at = self.images.free();
        self.images.push(at + image.len() as u32);
        self.put(place(at), image);
        Ok(Cell(at))
    }

    /// Copies an image of `len` bytes of memory, the first at the address and each `step` after
    /// the one before, into the image region as `image_push` does: the bytes that stood there
    /// before, also where they overlap with the image.
    ///
    /// Address, if the range from the first to the last of them can't be read; else Full, if the
    /// image doesn't fit, or 256 images run.
    #[tactic(auto, using(crate::proofs::Spread::every_length))]
    pub fn image_push_from(&mut self, from: Cell, len: Cell, step: Cell) -> Result<Cell, MemFault>
        requires { 1 ≤ step.0 }
        ensures value { Answers (image_pushed_from self.old from.0 len.0 step.0) self.old self.new (address_of result) }
        ensures memory { TakesNoMemory result }
    {
        let source = self.spread_source(from.0, len.0, step.0)?;
        let at = self.images.free();
        if len.0 > IMAGE_LIMIT - at || self.images.count() >= LIMIT {
            return Err(MemFault::Full);
        }
        self.images.push(at + len.0);
        self.gather(source, place(at), len.0 as usize, step.0 as usize);
        Ok(Cell(at))
    }

    /// Gives back the latest image, if one runs: its bytes are 0 again.
    pub fn image_pop(&mut self)
        ensures { self.new ≡ image_popped self.old }
    {
        let Some(end) = self.images.pop() else {
            return;
        };
        let at = self.images.free();
        self.set_all(place(at), (end - at) as usize, 0);
    }
}
