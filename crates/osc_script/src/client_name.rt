//! The names of clients.
ghost use Rattle.std.specs.Prelude.{◌≡◌, ◌≤◌, ◌↔◌, IfSome, IsSome};

/// A client of a script, `c1` to `c9`.
#[derive(Clone, Copy, Debug, PartialEq, Eq)]
pub struct ClientName {
    /// The digit of its name, 1 to 9.
    pub digit: u8,
    ghost bound: { (1 ≤ digit) × (digit ≤ 9) },
}

impl ClientName {
    /// The client of this digit, if it is 1 to 9.
    pub fn new(digit: u8) -> Option<ClientName>
        ensures value { IfSome result (λ client. client.digit ≡ digit) }
        ensures some { IsSome result ↔ (1 ≤ digit) × (digit ≤ 9) }
    {
        if 1 <= digit && digit <= 9 {
            Some(ClientName { digit })
        } else {
            None
        }
    }
}
