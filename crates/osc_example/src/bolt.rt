//! The bolt: what holders want of it, where it is, and the motor that moves it.
ghost use Rattle.std.specs.Prelude.{◌≡◌, ◌↔◌, Some};
ghost use Rattle.osc_example.specs.Inner.Bolt.{bolt_after, bolt_word, wanted_word};
ghost use Rattle.osc_example.specs.declared.bolt.Wanted.{Wanted as AnyWanted};

/// Where a holder wants the bolt.
#[derive(Clone, Copy, Debug, PartialEq, Eq)]
pub enum Wanted {
    Open,
    Shut,
}

/// Where the bolt is.
#[derive(Clone, Copy, Debug, PartialEq, Eq)]
pub enum Bolt {
    Open,
    Shut,
    /// It didn't get to where it was wanted.
    Jammed,
}

/// What is here for the lock's motor, and for the switch that tells whether it got there.
#[derive(Clone, Copy, Debug, PartialEq, Eq)]
pub enum Motor {
    Runs,
    Sticks,
}

impl Wanted {
    /// What these bytes of `/lock/wanted` mean, if anything.
    pub fn from_bytes(bytes: &[u8]) -> Option<Wanted>
        ensures { (wanted : AnyWanted) → (result ≡ Some wanted) ↔ (bytes.now ≡ wanted_word wanted) }
    {
        match bytes {
            b"open" => Some(Wanted::Open),
            b"shut" => Some(Wanted::Shut),
            _ => None,
        }
    }

    /// The bytes that mean this.
    pub fn word(self) -> &'static [u8]
        ensures { result.now ≡ wanted_word self }
    {
        match self {
            Wanted::Open => b"open",
            Wanted::Shut => b"shut",
        }
    }
}

impl Bolt {
    /// The bytes of `/lock/actual` that say this.
    pub fn word(self) -> &'static [u8]
        ensures { result.now ≡ bolt_word self }
    {
        match self {
            Bolt::Open => b"open",
            Bolt::Shut => b"shut",
            Bolt::Jammed => b"jammed",
        }
    }
}

impl Motor {
    /// Moves the bolt to where it is wanted, and tells where it is then.
    pub fn moves(self, wanted: Wanted) -> Bolt
        ensures { result ≡ bolt_after self wanted }
    {
        match (self, wanted) {
            (Motor::Sticks, _) => Bolt::Jammed,
            (Motor::Runs, Wanted::Open) => Bolt::Open,
            (Motor::Runs, Wanted::Shut) => Bolt::Shut,
        }
    }
}
