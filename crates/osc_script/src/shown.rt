//! How bytes are printed that somebody else chose.

ghost use Rattle.std.specs.Prelude.{◌≡◌, Some};
ghost use Rattle.osc_script.specs.Shown as spec;

use std::fmt;

/// Bytes that somebody else chose, as a path or the name of a key: each prints as itself where it is printable ASCII, or else as `?`, so that
/// nothing of them starts a line or moves a cursor.
#[derive(Clone, Copy)]
pub struct Shown<'a>(pub &'a [u8]);

impl fmt::Display for Shown<'_> {
    ghost output = { λ bytes. Some (spec.shown bytes.0.now) };

    fn fmt<W: fmt::Write>(&self, f: &mut fmt::Formatter<W>) -> fmt::Result {
        for byte in self.0 {
            write!(f, "{}", printed(*byte))?;
        }
        Ok(())
    }
}

fn printed(byte: u8) -> char
    ensures { result ≡ spec.shown_byte byte }
{
    if 33 <= byte && byte <= 126 {
        char::from(byte)
    } else {
        '?'
    }
}
