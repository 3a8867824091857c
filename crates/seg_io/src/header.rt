ghost use Rattle.std.specs.Prelude.{◌≡◌, ◌≤◌, ◌+◌, length};
ghost use Rattle.agglo_model.specs.Numbers.{u64_at};
ghost use Rattle.agglo_model.specs.VolumeFile.{u32_at};

use byteorder::{ByteOrder, LittleEndian};

/// How many bytes the header of a file has, whichever kind of file it is.
pub const HEADER_LENGTH: usize = 32;

/// The number in the four bytes from `offset`, the lowest byte first.
pub fn u32_at(bytes: &[u8], offset: usize) -> u32
    requires { offset + 4 ≤ length bytes.now }
    ensures { result ≡ u32_at offset bytes.now }
{
    LittleEndian::read_u32(&bytes[offset..])
}

/// The number in the eight bytes from `offset`, the lowest byte first.
pub fn u64_at(bytes: &[u8], offset: usize) -> u64
    requires { offset + 8 ≤ length bytes.now }
    ensures { result ≡ u64_at offset bytes.now }
{
    LittleEndian::read_u64(&bytes[offset..])
}
