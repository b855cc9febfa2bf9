//! AEAD algorithms (RFC 9053 section 4.2).
ghost use Rattle.std.specs.Prelude.{◌≡◌, IfSome, IfNone};
ghost use Rattle.osc_model.specs.Algorithm.{algorithm_number};
ghost use Rattle.osc_model.specs.declared.algorithm.Algorithm.{Algorithm as AnyAlgorithm};

/// The AEAD algorithm of a security context (RFC 8613 section 3.2).
#[derive(Clone, Copy, Debug, PartialEq, Eq)]
pub enum Algorithm {
    /// AES-CCM-16-64-128, whose tag has 8 bytes: number 10.
    EightByteTag,
    /// AES-CCM-16-128-128, whose tag has 16 bytes: number 30.
    SixteenByteTag,
}

impl Algorithm {
    /// Its number among COSE's algorithms.
    pub fn number(self) -> u64
        ensures { result ≡ algorithm_number self }
    {
        match self {
            Algorithm::EightByteTag => 10,
            Algorithm::SixteenByteTag => 30,
        }
    }

    /// The algorithm of this number, if it is one of the two.
    pub fn from_number(number: u64) -> Option<Algorithm>
        ensures some { IfSome result (λ algorithm. number ≡ algorithm_number algorithm) }
        ensures none { IfNone result ((algorithm : AnyAlgorithm) → ¬ (number ≡ algorithm_number algorithm)) }
    {
        match number {
            10 => Some(Algorithm::EightByteTag),
            30 => Some(Algorithm::SixteenByteTag),
            _ => None,
        }
    }
}
