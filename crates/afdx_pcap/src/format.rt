//! The forms of a capture's numbers.

ghost use Rattle.std.specs.Prelude.{◌≡◌, ◌+◌, ◌≤◌, length};
ghost use Rattle.afdx_pcap.specs.Number.{field};
ghost use Rattle.afdx_pcap.specs.Capture.{format_of, head_of, parts_of_second, nanos};

use byteorder::{BigEndian, ByteOrder, LittleEndian};

/// Bytes of a file's header.
pub const HEADER_LENGTH: usize = 24;

/// Bytes of a record's header.
pub const HEAD_LENGTH: usize = 16;

/// The order of the bytes of every number in a file.
#[derive(Clone, Copy, Debug, PartialEq, Eq)]
pub enum Endian {
    Big,
    Little,
}

/// What the fraction of a stamp counts.
#[derive(Clone, Copy, Debug, PartialEq, Eq)]
pub enum Resolution {
    Micros,
    Nanos,
}

/// What a file's magic says.
#[derive(Clone, Copy, Debug, PartialEq, Eq)]
pub struct Format {
    pub endian: Endian,
    pub resolution: Resolution,
}

/// The numbers of a record's header, each a word of 32 bits, in the order of the file.
#[derive(Clone, Copy, Debug, PartialEq, Eq)]
pub struct Head {
    pub seconds: u32,
    pub fraction: u32,
    pub captured: u32,
    pub original: u32,
}

impl Format {
    /// Returns the format of a magic that was read as a big-endian number, if it is one of the four. O(1).
    pub fn of_magic(magic: u32) -> Option<Format>
        ensures { result ≡ format_of magic }
    {
        let (endian, resolution) = match magic {
            0xa1b2_c3d4 => (Endian::Big, Resolution::Micros),
            0xd4c3_b2a1 => (Endian::Little, Resolution::Micros),
            0xa1b2_3c4d => (Endian::Big, Resolution::Nanos),
            0x4d3c_b2a1 => (Endian::Little, Resolution::Nanos),
            _ => return None,
        };
        Some(Format { endian, resolution })
    }
}

impl Endian {
    /// Returns the number that the two bytes from a place on are in this order. O(1).
    #[tactic(auto, unfolding(crate::specs::Number::number))]
    pub fn u16_at(self, bytes: &[u8], place: usize) -> u16
        requires { place + 2 ≤ length bytes.now }
        ensures { result ≡ field self place 2 bytes.now }
    {
        match self {
            Endian::Big => BigEndian::read_u16(&bytes[place..]),
            Endian::Little => LittleEndian::read_u16(&bytes[place..]),
        }
    }

    /// Returns the number that the four bytes from a place on are in this order. O(1).
    #[tactic(auto, unfolding(crate::specs::Number::number))]
    pub fn u32_at(self, bytes: &[u8], place: usize) -> u32
        requires { place + 4 ≤ length bytes.now }
        ensures { result ≡ field self place 4 bytes.now }
    {
        match self {
            Endian::Big => BigEndian::read_u32(&bytes[place..]),
            Endian::Little => LittleEndian::read_u32(&bytes[place..]),
        }
    }

    /// Reads the numbers of the record's header at the start.
    ///
    /// The order of the bytes is tested once for all four numbers; each of them would test it again.
    pub fn head_at_start(self, bytes: &[u8]) -> Head
        requires { 16 ≤ length bytes.now }
        ensures { result ≡ head_of self bytes.now }
    {
        match self {
            Endian::Big => Endian::Big.words_at_start(bytes),
            Endian::Little => Endian::Little.words_at_start(bytes),
        }
    }

    /// Reads these numbers in this order, which the compiler knows where it is called.
    #[tactic(auto, unfolding(crate::specs::Capture::head_of))]
    #[inline(always)]
    fn words_at_start(self, bytes: &[u8]) -> Head
        requires { 16 ≤ length bytes.now }
        ensures { result ≡ head_of self bytes.now }
    {
        Head {
            seconds: self.u32_at(bytes, 0),
            fraction: self.u32_at(bytes, 4),
            captured: self.u32_at(bytes, 8),
            original: self.u32_at(bytes, 12),
        }
    }
}

impl Resolution {
    /// Returns how many of the parts that the fraction counts make a second.
    pub fn parts_of_second(self) -> u32
        ensures { result ≡ parts_of_second self }
    {
        match self {
            Resolution::Micros => 1_000_000,
            Resolution::Nanos => 1_000_000_000,
        }
    }

    /// Returns the nanoseconds of such a part.
    pub fn nanos(self) -> u32
        ensures { result ≡ nanos self }
    {
        match self {
            Resolution::Micros => 1_000,
            Resolution::Nanos => 1,
        }
    }
}
