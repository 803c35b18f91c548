// A function without parameters does nothing: its contract is a law.

ghost use Rattle.of_rom.specs.Laws.{ImagesAdjoin, ImagesAreRead, ProgramsAreFirst};
ghost use Rattle.of_rom.specs.Rows.{PiecesAreRead};

/// An image is read at a place exactly where its bytes have an image's form there: the signature, a data structure
/// inside of the image, a length that is a multiple of 512 and not 0, within the ROM, and an FCode program that begins
/// inside of the image; and it has what these bytes say.
pub fn images_are_read()
    ensures { ImagesAreRead }
{}

/// The images of a ROM stand one behind the other: the first begins at 0, each other one where the one before it
/// ends, and the last alone says that it is the last; or else what is wrong is so of the place where the last one
/// ends. There is no other such row.
pub fn images_adjoin()
    ensures { ImagesAdjoin }
{}

/// The FCode program of a ROM is that of its first image of Open Firmware's code type, from where that image says to
/// its end; where there is no such image there is none, or what is wrong behind the others is the answer.
pub fn programs_are_first()
    ensures { ProgramsAreFirst }
{}

/// A ROM that is put together of images one behind the other, of which the last alone says that it is the last, has
/// these images, each as it is by itself but for where it stands; what stands behind them changes nothing.
pub fn pieces_are_read()
    ensures { PiecesAreRead }
{}
