ghost use Rattle.std.specs.Prelude.{◌≡◌};
ghost use Rattle.of_rom.specs.Images.{code_type};

/// What an image holds (PCI Local Bus Specification 3.0, 6.3.1.2).
#[derive(Clone, Copy)]
pub enum CodeType {
    /// 0: code for PCs.
    X86,
    /// 1: an FCode program for Open Firmware.
    OpenFirmware,
    /// 2: code for PA-RISC machines.
    PaRisc,
    /// 3: code for the Extensible Firmware Interface.
    Efi,
    /// Any other number.
    Other(u8),
}

impl CodeType {
    /// The type of a number.
    pub(crate) fn of(number: u8) -> CodeType
        ensures { result ≡ code_type number }
    {
        match number {
            0 => CodeType::X86,
            1 => CodeType::OpenFirmware,
            2 => CodeType::PaRisc,
            3 => CodeType::Efi,
            other => CodeType::Other(other),
        }
    }
}
