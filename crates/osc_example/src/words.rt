//! How the program says things.

use osc_model::{Code, Method};
use std::fmt;

/// A code as the standard writes it, as `2.05`.
#[derive(Clone, Copy)]
pub struct Dotted(pub Code);

impl fmt::Display for Dotted {
    fn fmt<W: fmt::Write>(&self, f: &mut fmt::Formatter<W>) -> fmt::Result {
        let code = self.0.0;
        let detail = code % 32;
        write!(f, "{}.{:02}", code / 32, detail)
    }
}

/// Bytes that came from elsewhere: each that isn't printable ASCII shows as `?`, since a terminal may take it for a command.
#[derive(Clone, Copy)]
pub struct Shown<'a>(pub &'a [u8]);

impl<'a> fmt::Display for Shown<'a> {
    fn fmt<W: fmt::Write>(&self, f: &mut fmt::Formatter<W>) -> fmt::Result {
        for byte in self.0 {
            f.write_char(printable(*byte))?;
        }
        Ok(())
    }
}

fn printable(byte: u8) -> char {
    if byte.is_ascii_graphic() || byte == b' ' {
        char::from(byte)
    } else {
        '?'
    }
}

/// The name of a method.
pub fn method_name(method: Method) -> &'static str {
    match method {
        Method::Get => "GET",
        Method::Post => "POST",
        Method::Put => "PUT",
        Method::Delete => "DELETE",
    }
}
