//! The names of proxies.
ghost use Rattle.std.specs.Prelude.{◌≡◌, ◌≤◌, ◌↔◌, IfSome, IsSome};

/// A proxy of a script, `p1` to `p9`.
#[derive(Clone, Copy, Debug, PartialEq, Eq)]
pub struct ProxyName {
    /// The digit of its name, 1 to 9.
    pub digit: u8,
    ghost bound: { (1 ≤ digit) × (digit ≤ 9) },
}

impl ProxyName {
    /// The proxy of this digit, if it is 1 to 9.
    pub fn new(digit: u8) -> Option<ProxyName>
        ensures value { IfSome result (λ proxy. proxy.digit ≡ digit) }
        ensures some { IsSome result ↔ (1 ≤ digit) × (digit ≤ 9) }
    {
        if 1 <= digit && digit <= 9 {
            Some(ProxyName { digit })
        } else {
            None
        }
    }
}
