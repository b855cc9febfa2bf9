//! The four kinds of message.

ghost use Rattle.std.specs.Prelude.{◌≡◌, ◌<◌, Some};
ghost use Rattle.osc_coap.specs.Kind.{kind_bits, kind_name};
ghost use Rattle.osc_coap.specs.Reading.{kind_of};

use std::fmt;

/// How a message is to be delivered, or what it answers (RFC 7252 sections 4.2 and 4.3). It is
/// shown by the standard's short name, as `CON`.
#[derive(Clone, Copy, Debug, PartialEq, Eq, Hash)]
pub enum Kind {
    /// To be acknowledged or reset.
    Confirmable,
    /// Not to be acknowledged.
    NonConfirmable,
    /// Answers a confirmable message.
    Acknowledgement,
    /// Answers a message that can't be processed.
    Reset,
}

impl Kind {
    /// The kind that the two bits of the field "type" stand for.
    pub(crate) fn from_bits(bits: u8) -> Kind
        requires { bits < 4 }
        ensures { result ≡ kind_of bits }
    {
        match bits {
            0 => Kind::Confirmable,
            1 => Kind::NonConfirmable,
            2 => Kind::Acknowledgement,
            _ => Kind::Reset,
        }
    }

    /// The two bits that stand for the kind.
    pub(crate) fn bits(self) -> u8
        ensures value { result ≡ kind_bits self }
        ensures bound { result < 4 }
    {
        match self {
            Kind::Confirmable => 0,
            Kind::NonConfirmable => 1,
            Kind::Acknowledgement => 2,
            Kind::Reset => 3,
        }
    }
}

impl fmt::Display for Kind {
    ghost output = { λ kind. Some (kind_name kind) };

    fn fmt<W: fmt::Write>(&self, f: &mut fmt::Formatter<W>) -> fmt::Result {
        f.write_str(match self {
            Kind::Confirmable => "CON",
            Kind::NonConfirmable => "NON",
            Kind::Acknowledgement => "ACK",
            Kind::Reset => "RST",
        })
    }
}
