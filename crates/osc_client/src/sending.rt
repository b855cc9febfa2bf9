//! What a client sends in answer to a datagram.
ghost use Rattle.std.specs.Prelude.{◌≡◌, ◌∷◌, [], true, IfOk, IsErr, option_map};
ghost use Rattle.osc_coap.specs.{Spells, spelling};
ghost use Rattle.osc_message.specs.{acknowledgement as acknowledgement_of, AreSendable, IsSendableReply, datagram, is_confirmable, sent_to};
ghost use Rattle.osc_client.specs.Table.{refusal as refusal_of};

use osc_coap::{Kind, MessageBuilder, MessageRef};
use osc_message::{acknowledgement, noted};
use osc_model::{Bytes, Code, Datagram, Datagrams, Peer};
use std::alloc::{AllocError, Global};

/// The message's datagram.
pub(crate) fn message_out(
    alloc: Global,
    to: Peer,
    message: &MessageBuilder,
) -> Result<Datagrams, AllocError>
    ensures sent { IfOk result (λ out. out ≡ datagram to message.now ∷ []) }
    ensures spelled { IfOk result (λ _. Spells (spelling message.now) message.now) }
    ensures fits { IfOk result AreSendable }
{
    let bytes = Bytes::from_slice(alloc, message.bytes())?;
    let mut out = Datagrams::new(alloc);
    out.push(Datagram { to, bytes })?;
    Ok(out)
}

/// 4.02 in the acknowledgement of the request.
pub(crate) fn refusal(message: &MessageRef<'_>) -> MessageBuilder
    ensures { result ≡ refusal_of message.now }
{
    let code = Code::BAD_OPTION.0;
    MessageBuilder::start(Kind::Acknowledgement, code, message.id(), message.token())
}

/// The acknowledgement of a response that counts, and its bytes to be noted, where it is confirmable.
pub(crate) fn acknowledged(
    alloc: Global,
    to: Peer,
    message: &MessageRef<'_>,
) -> Result<(Datagrams, Option<Bytes>), AllocError>
    ensures sent { IfOk result (λ made. made.0 ≡ sent_to to (acknowledgement_of message.now)) }
    ensures noted { IfOk result (λ made. made.1 ≡ option_map spelling (acknowledgement_of message.now)) }
    ensures fits { IfOk result (λ made. AreSendable made.0) }
    ensures short { IfOk result (λ made. IsSendableReply made.1) }
    ensures needs_memory { IsErr result → is_confirmable message.now.kind ≡ true }
{
    match acknowledgement(message) {
        Some(answer) => {
            let (out, bytes) = noted(alloc, to, &answer)?;
            Ok((out, Some(bytes)))
        }
        None => Ok((Datagrams::new(alloc), None)),
    }
}
