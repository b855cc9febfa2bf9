//! Heads of items: a major type and an argument (RFC 8949 section 3).

ghost use Rattle.std.specs.Prelude.{◌≡◌, ◌≤◌};
ghost use Rattle.arrayvec.specs.ArrayVec.{array_vec_len};
ghost use Rattle.osc_cbor.specs.Head as spec;
ghost use Rattle.osc_cbor.specs.Major.{major_number};

use arrayvec::ArrayVec;

/// The most bytes of a head.
pub const HEAD_LIMIT: usize = 9;

/// The major types whose heads have an argument (RFC 8949 section 3.1).
#[derive(Clone, Copy, Debug, PartialEq, Eq)]
pub enum Major {
    /// The argument is the number.
    Unsigned,
    /// Of an argument n, the number is -1 - n.
    Negative,
    /// The argument is how many bytes follow.
    Bytes,
    /// The argument is how many bytes of UTF-8 follow.
    Text,
    /// The argument is how many items follow.
    Array,
    /// The argument is how many keys, each with its value, follow.
    Map,
    /// The argument is the tag's number; one item follows.
    Tag,
}

impl Major {
    /// The three high bits of the first byte.
    pub fn number(self) -> u8
        ensures { result ≡ major_number self }
    {
        match self {
            Major::Unsigned => 0,
            Major::Negative => 1,
            Major::Bytes => 2,
            Major::Text => 3,
            Major::Array => 4,
            Major::Map => 5,
            Major::Tag => 6,
        }
    }
}

/// The shortest head of this major type and argument; takes no memory.
#[tactic(auto, unfolding(crate::specs::Head::head))]
pub fn head(major: Major, argument: u64) -> ArrayVec<u8, HEAD_LIMIT>
    ensures spelled { result.items ≡ spec.head (major_number major) argument }
    ensures short { array_vec_len result ≤ HEAD_LIMIT }
{
    let mut out = ArrayVec::new();
    let high = 32 * major.number();
    if argument < 24 {
        out.push(high + argument as u8);
    } else if argument < 0x100 {
        out.push(high + 24);
        out.push(argument as u8);
    } else if argument < 0x1_0000 {
        out.push(high + 25);
        let _ = out.try_extend_from_slice(&(argument as u16).to_be_bytes());
    } else if argument < 0x1_0000_0000 {
        out.push(high + 26);
        let _ = out.try_extend_from_slice(&(argument as u32).to_be_bytes());
    } else {
        out.push(high + 27);
        let _ = out.try_extend_from_slice(&argument.to_be_bytes());
    }
    out
}
