//! The client's end of an exchange.

ghost use Rattle.std.specs.Prelude.{◌≡◌, ◌≢◌, ℕ, ◌≤◌, ◌<◌, ◌+◌, ◌++◌, ◌↔◌, List, [], ◌∷◌, length, max, IfOk, IsErr, OnOk, OnErr, Err, Some, option_map};
ghost use Rattle.osc_model.specs.declared.context.Side.TheVariants.{Client};
ghost use Rattle.osc_context.specs.{taken_of, sender_of, recipient_of, greatest_number};
ghost use Rattle.osc_cbor.specs.{DataItem, IsWhole, spelling};
ghost use Rattle.osc_model.specs.{code as code_of, nonce_drawn};
ghost use Rattle.osc_token.specs.Inner.Reading.{IsItem};
ghost use Rattle.osc_authz.specs.Begun.{Begun};
ghost use Rattle.osc_authz.specs.Client.{Finishes, made_name, offered_id as offered};
ghost use Rattle.osc_authz.specs.Exchange.{post_item};
ghost use Rattle.osc_authz.specs.Inner.Payload.{answer_fields as fields_of};

use crate::derivation::derived;
use crate::error::FinishError;
use crate::granted::ClientDesk;
use crate::payload::{answer_fields, write_post};
use osc_cbor::ItemRef;
use osc_context::{Exhausted, RecipientContext, SendNumber, SenderContext, joined_salt};
use osc_model::{Bytes, Code, ContextName, Draw, SharedName, Side};
use std::alloc::{AllocError, Global};
use std::marker::Model;

/// An exchange that a client has begun. It can't be copied, and is used up when it is finished.
#[derive(Debug, Drop)]
pub struct OpenExchange {
    nonce1: [u8; 8],
    recipient_id: u8,
}

impl Model for OpenExchange {
    ghost use Rattle.osc_authz.specs.Begun.{Begun};

    ghost Value = { Begun };

    ghost view = { λ exchange. record { nonce1 = exchange.nonce1; recipient_id = exchange.recipient_id } };
}

impl OpenExchange {
    /// The nonce that the client drew.
    pub fn nonce1(&self) -> &[u8; 8]
        ensures { result.now ≡ self.now.nonce1 }
    {
        &self.nonce1
    }
}

/// A security context of a client.
pub struct ClientContext {
    name: SharedName,
    sender: SenderContext,
    recipient: RecipientContext,
}

impl Drop for ClientContext {
    fn drop(self) {
        let ClientContext {
            name: _,
            sender: _,
            recipient: _,
        } = self;
    }
}

impl Model for ClientContext {
    ghost use Rattle.std.specs.Prelude.{◌≡◌, []};
    ghost use Rattle.osc_model.specs.declared.context.Side.TheVariants.{Client};
    ghost use Rattle.osc_context.specs.{sender_of, recipient_of};
    ghost use Rattle.osc_authz.specs.Begun.{ClientContextState};

    ghost Value = { ClientContextState };

    ghost view = { λ context. record { name = context.name; next = context.sender.next } };

    ghost invariant = { λ context. (context.sender ≡ sender_of context.name Client context.sender.next) × (context.recipient ≡ recipient_of context.name Client []) };
}

impl ClientContext {
    /// The name, which is shared with those who note its uses.
    pub fn name(&self) -> &SharedName
        ensures { result.now ≡ self.now.name }
    {
        &self.name
    }

    /// What the client seals with.
    pub fn sender(&self) -> &SenderContext
        ensures { result.now ≡ sender_of self.now.name Client self.now.next }
    {
        &self.sender
    }

    /// What the client opens with.
    pub fn recipient(&self) -> &RecipientContext
        ensures { result.now ≡ recipient_of self.now.name Client [] }
    {
        &self.recipient
    }

    /// Takes the next number, as [`SenderContext::take_number`] does.
    ///
    /// # Errors
    ///
    /// `Exhausted` exactly where the greatest number has been taken or skipped; nothing is changed then.
    pub fn take_number(&mut self) -> Result<SendNumber, Exhausted>
        ensures refused { IsErr result ↔ (greatest_number < self.old.next) }
        ensures number { IfOk result (λ taken. taken ≡ taken_of self.old.name Client self.old.next) }
        ensures next { OnOk result (self.new ≡ record self.old { next = self.old.next + 1 }) }
        ensures err { OnErr result (self.new ≡ self.old) }
    {
        self.sender.take_number()
    }

    /// Raises the number that is taken next to this one; a lower one changes nothing.
    pub fn skip_to(&mut self, next: u64)
        ensures { self.new ≡ record self.old { next = max self.old.next next } }
    {
        self.sender.skip_to(next);
    }
}

/// The recipient ID that a client offers beside the context that it holds.
fn offered_id(held: Option<&ClientContext>) -> u8
    ensures { result ≡ offered (option_map (λ context. context.now) held.entry) }
{
    match held {
        Some(context) if context.recipient().id() == [0].as_slice() => 1,
        _ => 0,
    }
}

impl ClientDesk {
    /// Begins an exchange with the nonce of the draw, its first 8 bytes. The recipient ID that the client offers is `00`, or
    /// `01` where the context that it holds has that already. Takes no memory.
    pub fn start(&self, held: Option<&ClientContext>, draw: &Draw) -> OpenExchange
        ensures { result ≡ record { nonce1 = nonce_drawn draw.now; recipient_id = offered (option_map (λ context. context.now) held.entry) } }
    {
        OpenExchange {
            nonce1: draw.nonce(),
            recipient_id: offered_id(held),
        }
    }

    /// Appends the payload of the post that begins the exchange; its Content-Format is 19, application/ace+cbor. Without
    /// memory all stays as it was.
    pub fn write_post(
        &self,
        alloc: Global,
        exchange: &OpenExchange,
        out: &mut Vec<u8>,
    ) -> Result<(), AllocError>
        ensures ok { OnOk result (out.new.items ≡ out.old.items ++ spelling (post_item self.now.token exchange.now.nonce1 (exchange.now.recipient_id ∷ []))) }
        ensures err { OnErr result (out.new.items ≡ out.old.items) }
    {
        write_post(
            alloc,
            self.token.as_slice(),
            &exchange.nonce1,
            exchange.recipient_id,
            out,
        )
    }

    /// Finishes an exchange by an answer of this code and payload, which came unprotected: it makes one context, whose name
    /// has both nonces, and is used up.
    ///
    /// # Errors
    ///
    /// `Fields` where the answer isn't 2.01 with a readable nonce and recipient ID, `EqualIds` where that is the client's
    /// own. Lack of memory alone hands the open exchange back; it is no answer where the code isn't 2.01 or the payload is no whole item
    /// of CBOR.
    pub fn finish(
        &self,
        alloc: Global,
        exchange: OpenExchange,
        code: Code,
        payload: &[u8],
    ) -> Result<ClientContext, FinishError>
        ensures finished { ((handed : Begun) → result ≢ Err (FinishError.Memory handed)) → Finishes self.now exchange code payload.now result }
        ensures memory { (handed : Begun) → result ≡ Err (FinishError.Memory handed) → (handed ≡ exchange) × (code ≡ code_of 2 1)
            × ((d : DataItem) × IsWhole payload.now d) }
    {
        match self.outcome_of(alloc, &exchange, code, payload) {
            Ok(made) => made,
            Err(_) => Err(FinishError::Memory(exchange)),
        }
    }

    /// The outcome of the exchange with an answer of this code and payload. An error is lack of memory.
    fn outcome_of(
        &self,
        alloc: Global,
        exchange: &OpenExchange,
        code: Code,
        payload: &[u8],
    ) -> Result<Result<ClientContext, FinishError>, AllocError>
        ensures finished { IfOk result (λ made. Finishes self.now exchange.now code payload.now made) }
        ensures memory { IsErr result → (code ≡ code_of 2 1) × ((d : DataItem) × IsWhole payload.now d) }
    {
        if code != Code::CREATED {
            return Ok(Err(FinishError::Fields));
        }
        match ItemRef::whole(payload) {
            Some(item) => self.made(alloc, exchange, &item),
            None => Ok(Err(FinishError::Fields)),
        }
    }

    /// The outcome of the exchange with an answer 2.01 whose payload is this item. An error is lack of memory.
    fn made(
        &self,
        alloc: Global,
        exchange: &OpenExchange,
        item: &ItemRef<'_>,
    ) -> Result<Result<ClientContext, FinishError>, AllocError>
        ensures finished { (payload : List ℕ) → IsItem payload item.now
            → IfOk result (λ made. Finishes self.now exchange.now (code_of 2 1) payload made) }
        ensures memory { IsErr result → (nonce2 server_id : List ℕ)
            × (fields_of item.now ≡ Some (nonce2, server_id)) × (server_id ≢ exchange.now.recipient_id ∷ []) }
    {
        let Some(answer) = answer_fields(item) else {
            return Ok(Err(FinishError::Fields));
        };
        if answer.server_id == [exchange.recipient_id].as_slice() {
            return Ok(Err(FinishError::EqualIds));
        }
        let context = self.context(alloc, exchange, answer.nonce2, answer.server_id)?;
        Ok(Ok(context))
    }

    /// The context that this nonce and this recipient ID of a server make.
    fn context(
        &self,
        alloc: Global,
        exchange: &OpenExchange,
        nonce2: &[u8],
        server_id: &[u8],
    ) -> Result<ClientContext, AllocError>
        requires short { length server_id.now ≤ 7 }
        requires apart { server_id.now ≢ exchange.now.recipient_id ∷ [] }
        ensures { IfOk result (λ context. context ≡ record { name = made_name self.now exchange.now nonce2.now server_id.now; next = 0 }) }
    {
        let name = ContextName {
            secret: self.secret.clone()?,
            salt: joined_salt(alloc, self.salt.as_slice(), &exchange.nonce1, nonce2)?,
            id_context: self.id_context.clone()?,
            client_id: Bytes::from_slice(alloc, server_id)?,
            server_id: Bytes::from_slice(alloc, &[exchange.recipient_id])?,
            alg: self.alg,
        };
        let name = SharedName::new(alloc, name)?;
        let (sender, recipient) = derived(alloc, &name, Side::Client)?;
        Ok(ClientContext {
            name,
            sender,
            recipient,
        })
    }
}
