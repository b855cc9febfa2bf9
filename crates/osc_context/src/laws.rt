//! Laws of the definitions, for the crates above. These functions do nothing: whoever calls one has its clauses for a proof.

ghost use Rattle.std.specs.Prelude.{◌≡◌, ◌≤◌, ◌<◌, ◌^◌, ℕ, List, length};
ghost use Rattle.osc_model.specs.declared.context.ContextName.{ContextName as AnyName};
ghost use Rattle.osc_model.specs.declared.context.Side.{Side as AnySide};
ghost use Rattle.osc_context.specs.Nonce.{longest_id, greatest_number, partial_iv, nonce, nonce_of};
ghost use Rattle.osc_context.specs.Derivation.{key_of, key_name_of, common_iv_of};
ghost use Rattle.osc_context.specs.MasterSalt.{master_salt, client_nonce, server_nonce};

/// Numbers below 2^40 have distinct Partial IVs, of 1 to 5 bytes.
pub fn one_partial_iv()
    ensures number { (m n : ℕ) → m ≤ greatest_number → n ≤ greatest_number → partial_iv m ≡ partial_iv n → m ≡ n }
    ensures size { (n : ℕ) → (0 < length (partial_iv n)) × (length (partial_iv n) ≤ 5) }
{}

/// Distinct pairs of sender ID and number have distinct nonces under one common IV.
pub fn distinct_nonces()
    ensures { (iv a b : List ℕ) (m n : ℕ)
        → length iv ≡ 13 → length a ≤ longest_id → length b ≤ longest_id → m ≤ greatest_number → n ≤ greatest_number
        → nonce iv a m ≡ nonce iv b n → (a ≡ b) × (m ≡ n) }
{}

/// Secret, master salt, id context and algorithm fix the common IV, and with the ID under which an end seals its key.
pub fn one_derivation()
    ensures common_iv { (a b : AnyName) → a.secret ≡ b.secret → a.salt ≡ b.salt → a.id_context ≡ b.id_context → a.alg ≡ b.alg
        → common_iv_of a ≡ common_iv_of b }
    ensures key { (a b : AnyName) (x y : AnySide) → key_name_of a x ≡ key_name_of b y → key_of a x ≡ key_of b y }
{}

/// Under equal secret, master salt, id context and algorithm a nonce tells the ID and the number that it is made of.
pub fn nonces_of_a_key()
    ensures { (a b : AnyName) (x y : List ℕ) (m n : ℕ)
        → a.secret ≡ b.secret → a.salt ≡ b.salt → a.id_context ≡ b.id_context → a.alg ≡ b.alg
        → length x ≤ longest_id → length y ≤ longest_id → m ≤ greatest_number → n ≤ greatest_number
        → nonce_of a x m ≡ nonce_of b y n → (x ≡ y) × (m ≡ n) }
{
    one_derivation();
    distinct_nonces();
    derived_lengths();
}

/// The lengths of what is derived: keys have 16 bytes, common IVs 13.
pub fn derived_lengths()
    ensures key { (name : AnyName) (side : AnySide) → length (key_of name side) ≡ 16 }
    ensures common_iv { (name : AnyName) → length (common_iv_of name) ≡ 13 }
{
    osc_hkdf::laws::lengths();
}

/// Master salts that are equal were joined of equal parts.
pub fn one_master_salt()
    ensures { (salt nonce1 nonce2 other other1 other2 : List ℕ)
        → length salt < 2 ^ 64 → length nonce1 < 2 ^ 64 → length nonce2 < 2 ^ 64
        → length other < 2 ^ 64 → length other1 < 2 ^ 64 → length other2 < 2 ^ 64
        → master_salt salt nonce1 nonce2 ≡ master_salt other other1 other2
        → (salt ≡ other) × (nonce1 ≡ other1) × (nonce2 ≡ other2) }
{
    osc_cbor::laws::one_item();
    osc_cbor::laws::what_is_written();
}

/// Both nonces of an exchange are read back from its master salt, so two exchanges whose salts are equal had equal nonces.
pub fn nonces_of_a_salt()
    ensures client { (salt nonce1 nonce2 : List ℕ)
        → length salt < 256 → length nonce1 < 256 → length nonce2 < 256
        → client_nonce (master_salt salt nonce1 nonce2) ≡ nonce1 }
    ensures server { (salt nonce1 nonce2 : List ℕ)
        → length nonce2 ≡ 8 → server_nonce (master_salt salt nonce1 nonce2) ≡ nonce2 }
{}
