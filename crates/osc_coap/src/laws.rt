//! Laws of the definitions, for the crates above: what a spelling is, how long it is, and how
//! messages grow. These functions do nothing: whoever calls one has its clauses for a proof.

ghost use Rattle.std.specs.Prelude.{◌≡◌, ◌<◌, ◌≤◌, ◌+◌, ◌^◌, ◌++◌, ℕ, List, [], Bool, Ok, Some, None, length, filter, sum_by};
ghost use Rattle.osc_coap.specs.declared.kind.Kind.{Kind as AnyKind};
ghost use Rattle.osc_coap.specs.Message.{NumberAndValue, Message, IsOptionBehind, AreOptions, HasSpelling, Spells, option_spelling, payload_spelling, spelling};
ghost use Rattle.osc_coap.specs.Plaintext.{Plaintext, HasPlaintextSpelling, SpellsPlaintext, plaintext_spelling};
ghost use Rattle.osc_coap.specs.Header.{HasHeader};
ghost use Rattle.osc_coap.specs.Reading.{AreBytes, message_at, plaintext_at};
ghost use Rattle.osc_coap.specs.Length.{option_length, options_length, payload_length, spelled_length, plaintext_length};
ghost use Rattle.osc_coap.specs.Building.{last_number, bare, with_option, payload_of, with_payload};

/// No bytes are two messages.
pub fn one_message()
    ensures { (bytes : List ℕ) (m n : Message) → Spells bytes m → Spells bytes n → m ≡ n }
{}

/// A message has one spelling, and its header names its kind and its message ID.
pub fn one_spelling()
    ensures spelled { (m : Message) → HasSpelling m → Spells (spelling m) m }
    ensures only { (bytes : List ℕ) (m : Message) → Spells bytes m → bytes ≡ spelling m }
    ensures header { (bytes : List ℕ) (m : Message) → Spells bytes m → HasHeader bytes m.kind m.id }
{}

/// The length of a spelling, exactly, and by the lengths of its parts alone.
pub fn length_of_spelling()
    ensures exact { (m : Message) → length (spelling m) ≡ spelled_length m }
    ensures most { (m : Message) → length (spelling m)
        ≤ 4 + length m.token + sum_by (λ option. 5 + length option.1) m.options
        + payload_length m.payload }
{}

/// A plaintext has one spelling, and no bytes are two plaintexts.
pub fn one_plaintext()
    ensures one { (bytes : List ℕ) (p q : Plaintext)
        → SpellsPlaintext bytes p → SpellsPlaintext bytes q → p ≡ q }
    ensures spelled { (p : Plaintext)
        → HasPlaintextSpelling p → SpellsPlaintext (plaintext_spelling p) p }
    ensures only { (bytes : List ℕ) (p : Plaintext)
        → SpellsPlaintext bytes p → bytes ≡ plaintext_spelling p }
{}

/// What is read from left to right is what the spelling says: of bytes, the one message or plaintext that they are, if
/// they are any.
pub fn reading()
    ensures message { (bytes : List ℕ) (m : Message) → AreBytes bytes → message_at bytes ≡ Ok m → Spells bytes m }
    ensures message_again { (bytes : List ℕ) (m : Message) → Spells bytes m → message_at bytes ≡ Ok m }
    ensures plaintext { (bytes : List ℕ) (p : Plaintext)
        → AreBytes bytes → plaintext_at bytes ≡ Some p → SpellsPlaintext bytes p }
    ensures plaintext_again { (bytes : List ℕ) (p : Plaintext) → SpellsPlaintext bytes p → plaintext_at bytes ≡ Some p }
{}

/// The length of a plaintext's spelling, exactly.
pub fn length_of_plaintext()
    ensures { (p : Plaintext) → length (plaintext_spelling p) ≡ plaintext_length p }
{}

/// A message that grows has a spelling at each step.
pub fn growing()
    ensures bare { (kind : AnyKind) (code id : ℕ) (token : List ℕ)
        → id < 2 ^ 16 → length token ≤ 8 → (code ≡ 0 → token ≡ [])
        → HasSpelling (bare kind code id token) }
    ensures option { (m : Message) (number : ℕ) (value : List ℕ)
        → HasSpelling m → 0 < m.code → IsOptionBehind (last_number 0 m.options) (number, value)
        → HasSpelling (with_option m number value) }
    ensures last { (m : Message) (number : ℕ) (value : List ℕ)
        → last_number 0 (with_option m number value).options ≡ number }
    ensures payload { (m : Message) (bytes : List ℕ)
        → HasSpelling m → 0 < m.code → HasSpelling (with_payload m bytes) }
{}

/// What each step adds to the spelling: its bytes are the last.
pub fn spelling_of_growing()
    ensures option { (m : Message) (number : ℕ) (value : List ℕ) → m.payload ≡ None
        → spelling (with_option m number value) ≡ spelling m ++ option_spelling (last_number 0 m.options) (number, value) }
    ensures payload { (m : Message) (bytes : List ℕ) → m.payload ≡ None
        → spelling (with_payload m bytes) ≡ spelling m ++ payload_spelling (payload_of bytes) }
{}

/// By how much each step makes the spelling longer, exactly, and at most.
pub fn length_of_growing()
    ensures bare { (kind : AnyKind) (code id : ℕ) (token : List ℕ)
        → length (spelling (bare kind code id token)) ≡ 4 + length token }
    ensures option { (m : Message) (number : ℕ) (value : List ℕ)
        → length (spelling (with_option m number value))
        ≡ length (spelling m) + option_length (last_number 0 m.options) (number, value) }
    ensures option_most { (before : ℕ) (option : NumberAndValue)
        → option_length before option ≤ 5 + length option.1 }
    ensures payload { (m : Message) (bytes : List ℕ)
        → m.payload ≡ None
        → length (spelling (with_payload m bytes))
        ≡ length (spelling m) + payload_length (payload_of bytes) }
    ensures payload_most { (bytes : List ℕ) → payload_length (payload_of bytes) ≤ 1 + length bytes }
{}

/// Options in two parts.
pub fn options_in_parts()
    ensures last { (before : ℕ) (front back : List NumberAndValue)
        → last_number before (front ++ back) ≡ last_number (last_number before front) back }
    ensures length { (before : ℕ) (front back : List NumberAndValue)
        → options_length before (front ++ back)
        ≡ options_length before front + options_length (last_number before front) back }
    ensures joined { (before : ℕ) (front back : List NumberAndValue)
        → AreOptions before front → AreOptions (last_number before front) back
        → AreOptions before (front ++ back) }
    ensures front { (before : ℕ) (front back : List NumberAndValue)
        → AreOptions before (front ++ back) → AreOptions before front }
    ensures back { (before : ℕ) (front back : List NumberAndValue)
        → AreOptions before (front ++ back) → AreOptions (last_number before front) back }
{}

/// Options of which some are left out: they are options, and no longer.
pub fn fewer_options()
    ensures options { (keeps : NumberAndValue → Bool) (before : ℕ) (options : List NumberAndValue)
        → AreOptions before options → AreOptions before (filter keeps options) }
    ensures last { (keeps : NumberAndValue → Bool) (before : ℕ) (options : List NumberAndValue)
        → AreOptions before options
        → last_number before (filter keeps options) ≤ last_number before options }
    ensures length { (keeps : NumberAndValue → Bool) (before : ℕ) (options : List NumberAndValue)
        → AreOptions before options
        → options_length before (filter keeps options) ≤ options_length before options }
{}
