//! What a header says, also that of a datagram that is no message.

ghost use Rattle.std.specs.Prelude.{◌≡◌, ◌<◌, ◌⊎◌, ◌↔◌, ℕ, Some, IfSome, IsNone, length};
ghost use Rattle.osc_coap.specs.declared.kind.Kind.{Kind as AnyKind};
ghost use Rattle.osc_coap.specs.Header.{HasHeader, HasOtherVersion};

use crate::kind::Kind;

/// The kind and the message ID that the datagram's header names, also where `MessageRef::parse`
/// answers `Format`: a malformed confirmable message is answered by a reset with its message ID
/// (RFC 7252 section 4.2).
pub fn kind_and_id(datagram: &[u8]) -> Option<(Kind, u16)>
    ensures found { IfSome result (λ named. HasHeader datagram.now named.0 named.1) }
    ensures only { (kind : AnyKind) (id : ℕ)
        → HasHeader datagram.now kind id → result ≡ Some (kind, id) }
    ensures none { IsNone result ↔ ((length datagram.now < 4) ⊎ HasOtherVersion datagram.now) }
{
    let [first, _, high, low, ..] = datagram else {
        return None;
    };
    if *first / 64 != 1 {
        return None;
    }
    Some((
        Kind::from_bits(*first / 16 % 4),
        256 * *high as u16 + *low as u16,
    ))
}
