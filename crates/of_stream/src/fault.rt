use thiserror::Error;

/// What is wrong with an image.
#[derive(Clone, Copy, Debug, PartialEq, Eq, Error)]
pub enum StreamFault {
    /// The first byte begins no image.
    #[error("bad start byte {0:02x}")]
    BadStart(u8),
    /// The first byte is that of `start0`, whose images are read from a fixed address of a card.
    #[error("start0 images are not read")]
    Start0,
    /// The image has fewer than the eight bytes of a header.
    #[error("image shorter than its header")]
    Short,
    /// The image ends before or within the token at this position.
    #[error("image ended in the token at {0:06x}")]
    Ended(usize),
}
