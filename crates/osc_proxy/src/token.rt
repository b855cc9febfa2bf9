//! Tokens that are kept.
ghost use Rattle.std.specs.Prelude.{◌≡◌, ◌≤◌, length};

use arrayvec::ArrayVec;
use std::fmt;
use std::marker::Model;

/// A token (RFC 7252 section 5.3.1), kept without memory; contracts see its bytes, which are 8 at most.
#[derive(Drop)]
pub struct Token {
    bytes: ArrayVec<u8, 8>,
}

impl Model for Token {
    ghost use Rattle.std.specs.Prelude.{List, ℕ, ◌≤◌, length};
    ghost use Rattle.std.specs.Coded.{coded_list, coded_ℕ};

    ghost Value = { List ℕ };

    ghost coded = { coded_list coded_ℕ };

    ghost view = { λ t. t.bytes.items };

    ghost invariant = { λ t. length t.bytes.items ≤ 8 };
}

impl fmt::Debug for Token {
    fn fmt<W: fmt::Write>(&self, f: &mut fmt::Formatter<W>) -> fmt::Result {
        f.write_str("Token")
    }
}

impl Token {
    /// A copy of these bytes.
    pub fn new(bytes: &[u8]) -> Token
        requires { length bytes.now ≤ 8 }
        ensures { result ≡ bytes.now }
    {
        let mut kept = ArrayVec::new();
        let _ = kept.try_extend_from_slice(bytes);
        Token { bytes: kept }
    }

    /// Its bytes, lent: at most 8.
    pub fn as_slice(&self) -> &[u8]
        ensures value { result.now ≡ self.now }
        ensures lawful { length self.now ≤ 8 }
    {
        self.bytes.as_slice()
    }
}
