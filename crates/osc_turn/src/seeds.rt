//! What gives seeds.
ghost use Rattle.std.specs.Prelude.{⊤, ℕ, List, IfOk};

use std::io;
use std::random::RandomSource;

/// What gives the seeds of generators. Contracts see which seeds it gave.
pub trait Seeds {
    // It gave this seed.
    ghost gave: { Self → List ℕ → Type 0 };

    /// A seed of 32 bytes.
    ///
    /// # Errors
    ///
    /// Those of the system, which had no random bytes.
    fn seed(&self) -> io::Result<[u8; 32]>
        ensures { IfOk result (λ seed. gave self.now seed) };
}

/// The random bytes of a runtime: nothing can be said of what it gives.
impl<R: RandomSource> Seeds for R {
    ghost gave = { λ _ _. ⊤ };

    fn seed(&self) -> io::Result<[u8; 32]> {
        let mut seed = [0; 32];
        self.fill_bytes(&mut seed)?;
        Ok(seed)
    }
}
