//! Laws of the definitions, for the crates above. These functions do nothing: whoever calls one has its clauses for a
//! proof.

ghost use Rattle.std.specs.Prelude.{◌≢◌, ◌↔◌, IsTrue, ℕ, List};
ghost use Rattle.osc_window.specs.Window.{IsFresh, is_fresh, IsWindowOf, AreAccepted, window_of, with_accepted};

/// The window says of each number what all accepted numbers say: each of them was fresh when it was accepted.
pub fn one_window()
    ensures window { (accepted : List ℕ) → AreAccepted accepted → IsWindowOf (window_of accepted) accepted }
    ensures fresh { (accepted : List ℕ) (n : ℕ) → AreAccepted accepted
        → (IsFresh (window_of accepted) n ↔ IsFresh accepted n) }
{}

/// What is fresh after a number is accepted was fresh before it, and isn't that number.
pub fn fresh_after()
    ensures { (window : List ℕ) (n m : ℕ) → IsFresh (with_accepted window n) m → IsFresh window m × (m ≢ n) }
{}

/// The test says what the relation says.
pub fn fresh_test()
    ensures { (accepted : List ℕ) (n : ℕ) → IsTrue (is_fresh accepted n) ↔ IsFresh accepted n }
{}
