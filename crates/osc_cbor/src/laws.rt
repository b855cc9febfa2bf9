//! Laws of the definitions, for the crates above. These functions do nothing: whoever calls one has its clauses for a proof.

ghost use Rattle.std.specs.Prelude.{◌≡◌, ◌≤◌, ℕ, List, ◌++◌, length};
ghost use Rattle.osc_cbor.specs.Data.{DataItem, nesting, most_nesting};
ghost use Rattle.osc_cbor.specs.Head.{head, IsHead};
ghost use Rattle.osc_cbor.specs.Spelling.{Spells, HasSpelling, spelling};

/// No spelling begins another, and no bytes are two items.
pub fn one_item()
    ensures { (a b x y : List ℕ) (d e : DataItem)
        → Spells a d → Spells b e → a ++ x ≡ b ++ y → (a ≡ b) × (d ≡ e) }
{}

/// What has a spelling is spelled by what is written, and what is spelled has a spelling.
pub fn what_is_written()
    ensures spells { (d : DataItem) → HasSpelling d → Spells (spelling d) d }
    ensures has { (bytes : List ℕ) (d : DataItem) → Spells bytes d → HasSpelling d }
{}
