//! Sets of methods as numbers (RFC 9237 section 3), with a bit besides for the paths below.

ghost use Rattle.std.specs.Prelude.{◌≡◌};
ghost use Rattle.osc_scope.specs.Entries as spec;

use osc_model::Method;

/// The bit of a set that counts on the paths below its own, too.
pub(crate) const BELOW: u64 = 16;

/// The number of all four methods and that bit.
pub(crate) const ALL_BITS: u64 = 31;

/// The bit of the method.
pub(crate) fn bit_of(method: Method) -> u64
    ensures { result ≡ spec.bit_of method }
{
    match method {
        Method::Get => 1,
        Method::Post => 2,
        Method::Put => 4,
        Method::Delete => 8,
    }
}

/// Whether the set has the method.
pub(crate) fn has(mask: u64, method: Method) -> bool
    ensures { result ≡ spec.has mask method }
{
    mask / bit_of(method) % 2 == 1
}

/// Whether the set counts on the paths below its own, too.
pub(crate) fn is_below(mask: u64) -> bool
    ensures { result ≡ spec.is_below mask }
{
    mask / BELOW % 2 == 1
}
