/// Why an image doesn't begin to run, in the order of the checks; NoMemory may stand in place of NoInstance.
#[derive(Clone, Copy, Debug)]
pub enum LoadFault {
    /// The image region has no room for the image.
    ImageTooLong,
    /// The instance of its package finds no room.
    NoInstance,
    /// A growth of memory was refused.
    NoMemory,
}
