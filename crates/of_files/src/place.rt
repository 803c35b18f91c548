ghost use Rattle.std.specs.Prelude.{◌≡◌, ◌+◌, ◌<◌, ◌^◌};
ghost use Rattle.of_files.specs.Files.{behind, first_place};

use of_source::Place;

/// Where a text begins.
pub(crate) fn first_place() -> Place
    ensures { result ≡ first_place }
{
    Place { line: 1, column: 1 }
}

/// Where what follows a byte at a place stands.
pub(crate) fn behind(place: Place, byte: u8) -> Place
    requires line { place.line + 1 < 2 ^ 64 }
    requires column { place.column + 1 < 2 ^ 64 }
    ensures { result ≡ behind byte place }
{
    if byte == b'\n' {
        Place {
            line: place.line + 1,
            column: 1,
        }
    } else {
        Place {
            line: place.line,
            column: place.column + 1,
        }
    }
}
