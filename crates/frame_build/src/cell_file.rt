// The header of a cell file.
ghost use Rattle.std.specs.Prelude.{◌≡◌};
ghost use Rattle.frame_build.specs.CellFile.{header as header_of};

use mode_set::Mode;

/// The eight bytes with which a cell file of version 2 begins: the letters `DVTC`, the version, 0 for
/// 2K and 1 for 8K, and two zeros.
pub fn header(mode: Mode) -> [u8; 8]
    ensures { result ≡ header_of mode }
{
    let mode = match mode {
        Mode::M2k => 0,
        Mode::M8k => 1,
    };
    [b'D', b'V', b'T', b'C', 2, mode, 0, 0]
}
