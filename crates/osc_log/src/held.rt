//! What a node holds, as counters tell it.
ghost use Rattle.std.specs.Prelude.{◌≡◌};

/// What a node holds.
#[derive(Clone, Copy, Debug, PartialEq, Eq)]
pub enum Held {
    /// A server: how many security contexts, and how many resources.
    Server { contexts: usize, resources: usize },
    /// A proxy: how many exchanges are open.
    Proxy { exchanges: usize },
}

/// A node that tells what it holds.
pub trait TellsHeld {
    ghost use Rattle.osc_log.specs.declared.held.Held.{Held};

    // What it holds.
    ghost held: { Self → Held };

    /// What it holds now.
    fn held(&self) -> Held
        ensures { result ≡ held self.now };
}
