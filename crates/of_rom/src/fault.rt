use thiserror::Error;

/// What is wrong with an expansion ROM, each with the offset of the image that it is about, in bytes from the ROM's
/// start (PCI Local Bus Specification 3.0, 6.3.1).
#[derive(Clone, Copy, Debug, Error)]
pub enum RomFault {
    /// No 0x55, 0xAA where an image is to begin; nor is there behind an image at the ROM's end that isn't the last.
    #[error("image at {0:06x}: no signature")]
    NoSignature(usize),
    /// The header, or the data structure to which it points, isn't whole within the ROM, has no `PCIR`, or stands
    /// outside of the image.
    #[error("image at {0:06x}: no data structure")]
    NoStructure(usize),
    /// The image says that its length is 0.
    #[error("image at {0:06x}: length 0")]
    NoLength(usize),
    /// The image says that it reaches behind the end of the ROM.
    #[error("image at {0:06x}: cut off by the end of the ROM")]
    CutOff(usize),
    /// The FCode program is said to begin outside of the image.
    #[error("image at {0:06x}: FCode program outside of the image")]
    FCodeOutside(usize),
}
