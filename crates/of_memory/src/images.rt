ghost use Rattle.std.specs.Prelude.{◌≡◌, ◌<◌, [], ◌∷◌, length, reverse, IfOk, MatchOption};
ghost use Rattle.of_memory.specs.Regions.{image_count};
ghost use Rattle.of_memory.specs.DataSpace.{free_after};
ghost use Rattle.of_memory.specs.Images.{latest_start};

use crate::regions::IMAGE_START;
use arrayvec::ArrayVec;
use std::alloc::AllocError;
use std::marker::Model;

/// How many images run at once at most: the return stack has an item for each.
pub(crate) const LIMIT: usize = 256;

/// Where each image that runs ends; and where the latest begins and ends, which each token asks for.
#[derive(Drop)]
pub(crate) struct ImageEnds {
    ends: ArrayVec<u32, LIMIT>,
    start: u32,
    free: u32,
}

// Clauses see the ends, the latest first.
impl Model for ImageEnds {
    ghost use Rattle.std.specs.Prelude.{List, ℕ, reverse, length, ◌≤◌, ◌≡◌};
    ghost use Rattle.of_memory.specs.Regions.{image_count};
    ghost use Rattle.of_memory.specs.DataSpace.{free_after};
    ghost use Rattle.of_memory.specs.Images.{latest_start};

    ghost Value = { List ℕ };

    ghost view = { λ s. reverse s.ends.items };

    ghost invariant = { λ s. (length s.ends.items ≤ image_count)
        × (s.start ≡ latest_start (reverse s.ends.items))
        × (s.free ≡ free_after (reverse s.ends.items)) };
}

/// Where the latest image begins, by the ends of those that run; the beginning of the region where none runs.
#[tactic(auto, using(crate::proofs::Latest::start_of_latest))]
fn start_of(ends: &ArrayVec<u32, LIMIT>) -> u32
    ensures { result ≡ latest_start (reverse ends.now.items) }
{
    let count = ends.len();
    if count < 2 {
        return IMAGE_START;
    }
    ends[count - 2]
}

impl ImageEnds {
    pub(crate) fn new() -> ImageEnds
        ensures { result ≡ [] }
    {
        ImageEnds {
            ends: ArrayVec::new(),
            start: IMAGE_START,
            free: IMAGE_START,
        }
    }

    /// The same ends once more.
    pub(crate) fn duplicate(&self) -> Result<ImageEnds, AllocError>
        ensures { IfOk result (λ s. s ≡ self.now) }
    {
        Ok(ImageEnds {
            ends: self.ends.clone()?,
            start: self.start,
            free: self.free,
        })
    }

    /// How many images run.
    pub(crate) fn count(&self) -> usize
        ensures { result ≡ length self.now }
    {
        self.ends.len()
    }

    /// Where the image region is free.
    #[inline]
    pub(crate) fn free(&self) -> u32
        ensures { result ≡ free_after self.now }
    {
        self.free
    }

    /// Where the latest image begins; the beginning of the region where none runs.
    #[inline]
    pub(crate) fn latest_start(&self) -> u32
        ensures { result ≡ latest_start self.now }
    {
        self.start
    }

    pub(crate) fn push(&mut self, end: u32)
        requires { length self.old < image_count }
        ensures { self.new ≡ end ∷ self.old }
    {
        self.ends.push(end);
        self.start = self.free;
        self.free = end;
    }

    pub(crate) fn pop(&mut self) -> Option<u32>
        ensures { MatchOption result ((self.old ≡ []) × (self.new ≡ [])) (λ end. self.old ≡ end ∷ self.new) }
    {
        let end = self.ends.pop()?;
        self.free = self.start;
        self.start = start_of(&self.ends);
        Some(end)
    }
}
