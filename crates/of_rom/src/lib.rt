//! Images of PCI expansion ROMs: what each says of itself, its FCode program, and a line that shows it.
#![tactic(auto)]

mod bytes;
mod code;
mod fault;
mod image;
mod laws;
mod rom;
mod text;

pub use code::CodeType;
pub use fault::RomFault;
pub use image::RomImage;
pub use laws::{images_adjoin, images_are_read, pieces_are_read, programs_are_first};
pub use rom::{fcode_of, rom_images};
pub use text::rom_text;
