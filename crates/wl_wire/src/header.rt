//! The two words before a message's arguments.
ghost use Rattle.std.specs.Prelude.{◌≡◌, ◌≤◌, ◌++◌, length, take, drop};

use byteorder::{ByteOrder, LittleEndian};

/// The longest message in bytes, header included, unless both ends agreed on more.
pub const MAX_MESSAGE_LEN: u16 = 4096;

/// The length of a header in bytes, and so of the shortest message.
pub const HEADER_LEN: usize = 8;

/// The first eight bytes of a message. (Section "Wire Format".)
#[derive(Clone, Copy, Debug, PartialEq, Eq)]
pub struct Header {
    /// The id of the message's target object.
    pub object: u32,
    /// The length of the whole message in bytes, these eight included.
    pub size: u16,
    /// The message's index among the requests, or the events, of the object's interface.
    pub opcode: u16,
}

impl Header {
    ghost use Rattle.wl_wire.specs.Word.{header_at, header_bytes};

    /// The header's two words: the object's, and one with the size in its upper half and the
    /// opcode in its lower half.
    pub fn to_bytes(self) -> [u8; HEADER_LEN]
        ensures { result ≡ header_bytes self }
    {
        let mut bytes = [0; HEADER_LEN];
        self.write(&mut bytes);
        bytes
    }

    /// Writes the header's two words over the first eight bytes.
    pub fn write(self, out: &mut [u8])
        requires { 8 ≤ length out.old }
        ensures { out.new ≡ header_bytes self ++ drop 8 out.old }
    {
        LittleEndian::write_u32(out, self.object);
        LittleEndian::write_u16(&mut out[4..], self.opcode);
        LittleEndian::write_u16(&mut out[6..], self.size);
    }

    /// The header in these bytes. Any eight bytes are a header.
    pub fn from_bytes(bytes: [u8; HEADER_LEN]) -> Header
        ensures spelled { bytes ≡ header_bytes result }
        ensures computes { result ≡ header_at bytes }
    {
        Header::at_front_of(&bytes)
    }

    /// The header in the first eight bytes.
    pub fn at_front_of(bytes: &[u8]) -> Header
        requires { 8 ≤ length bytes.now }
        ensures spelled { take 8 bytes.now ≡ header_bytes result }
        ensures computes { result ≡ header_at bytes.now }
    {
        Header {
            object: LittleEndian::read_u32(bytes),
            size: LittleEndian::read_u16(&bytes[6..8]),
            opcode: LittleEndian::read_u16(&bytes[4..6]),
        }
    }
}
