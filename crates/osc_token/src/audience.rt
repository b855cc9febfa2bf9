//! Audiences.

ghost use Rattle.std.specs.Prelude.{◌≡◌, IfOk, nat_eq};
ghost use Rattle.std.specs.Cmp.Lexicographic.{pointwise, nat_list_eq_equiv};
ghost use Rattle.std.specs.Cmp.{partial_equiv_from_equiv};
ghost use Rattle.std.specs.Str.{IsUtf8};

use std::alloc::{AllocError, Global};
use std::marker::Model;

/// For whom a token is (RFC 8392 section 3.1.3): the name of a resource server. Contracts see the bytes of the text.
#[derive(Debug, Drop)]
pub struct Audience {
    text: String,
}

impl Model for Audience {
    ghost use Rattle.std.specs.Prelude.{List, ℕ, string_bytes};
    ghost use Rattle.std.specs.Coded.{coded_list, coded_ℕ};

    ghost Value = { List ℕ };

    ghost coded = { coded_list coded_ℕ };

    ghost view = { λ audience. string_bytes audience.text };
}

impl Audience {
    /// The audience of this name.
    pub fn new(alloc: Global, text: &str) -> Result<Audience, AllocError>
        ensures { IfOk result (λ audience. audience ≡ text.now) }
    {
        Ok(Audience {
            text: String::from_str(alloc, text)?,
        })
    }

    /// The name.
    pub fn as_str(&self) -> &str
        ensures text { result.now ≡ self.now }
        ensures utf8 { IsUtf8 self.now }
    {
        &self.text
    }
}

impl Clone for Audience {
    ghost is_clone = { λ audience copy. copy ≡ audience };

    fn clone(&self) -> Result<Self, AllocError> {
        Ok(Audience {
            text: self.text.clone()?,
        })
    }
}

impl PartialEq for Audience {
    ghost eq = { pointwise nat_eq };

    ghost laws = { partial_equiv_from_equiv nat_list_eq_equiv };

    fn eq(&self, other: &Audience) -> bool {
        self.text.as_bytes() == other.text.as_bytes()
    }
}

impl Eq for Audience {
    ghost laws = { nat_list_eq_equiv };
}
