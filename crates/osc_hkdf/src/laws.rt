//! Laws of the definitions, for the crates above. These functions do nothing: whoever calls one has its clauses for a
//! proof.
ghost use Rattle.std.specs.Prelude.{◌≡◌, ◌≤◌, ℕ, List, length, take};
ghost use Rattle.osc_hkdf.specs.Hmac.{hmac_of};
ghost use Rattle.osc_hkdf.specs.Hkdf.{extract_of, expand_of};

/// How many bytes each of the three gives.
pub fn lengths()
    ensures hmac { (key text : List ℕ) → length (hmac_of key text) ≡ 32 }
    ensures extract { (salt ikm : List ℕ) → length (extract_of salt ikm) ≡ 32 }
    ensures expand { (prk info : List ℕ) (n : ℕ) → length (expand_of prk info n) ≡ n }
{}

/// A shorter output is the beginning of a longer one.
pub fn a_shorter_output_begins_a_longer()
    ensures { (prk info : List ℕ) (short long : ℕ)
        → short ≤ long → take short (expand_of prk info long) ≡ expand_of prk info short }
{}
