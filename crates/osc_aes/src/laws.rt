//! Laws of the definitions.
ghost use Rattle.std.specs.Prelude.{◌≡◌, ℕ, ◌-◌, ◌*◌, ◌<◌, ◌≤◌, ◌↔◌, List, length, take, All};
ghost use Rattle.osc_aes.specs.Field.{IsInverse, inverse};
ghost use Rattle.osc_aes.specs.KeyExpansion.{key_expansion, schedule_word, word};
ghost use Rattle.osc_aes.specs.Cipher.{encrypt_block};

/// `encrypt_block` gives 16 numbers, which are bytes where the key's are.
pub fn a_block_is_sixteen_bytes()
    ensures sixteen { (key block : List ℕ) → length (encrypt_block key block) ≡ 16 }
    ensures bytes { (key block : List ℕ) → All (λ b. b < 256) key → All (λ b. b < 256) (encrypt_block key block) }
{}

/// Each byte has one inverse, which is the one that the definition finds.
pub fn one_inverse()
    ensures { (b y : ℕ) → b < 256 → y < 256 → (IsInverse b y ↔ (y ≡ inverse b)) }
{}

/// The key schedule word by word (FIPS 197, section 5.2): the first four are the key's, and each other one is made of
/// the word four places before it and the word just before it.
pub fn each_word_of_the_schedule()
    ensures all { (key : List ℕ) → length key ≡ 16 → length (key_expansion key) ≡ 4 * 44 }
    ensures first { (key : List ℕ) → length key ≡ 16 → take 16 (key_expansion key) ≡ key }
    ensures others { (key : List ℕ) (i : ℕ) → length key ≡ 16 → 4 ≤ i → i < 44 → word (key_expansion key) i
        ≡ schedule_word i (word (key_expansion key) (i - 4)) (word (key_expansion key) (i - 1)) }
{}
