//! The AEAD algorithm of a security context (RFC 8613 section 3.2).
ghost use Rattle.std.specs.Prelude.{◌≡◌};
ghost use Rattle.osc_context.specs.Algorithm.{algorithm_of as algorithm_of_name};

use osc_model::{Algorithm, ContextName};

/// The algorithm of the context of this name.
pub fn algorithm_of(name: &ContextName) -> Algorithm
    ensures { result ≡ algorithm_of_name name.now }
{
    name.alg
}
