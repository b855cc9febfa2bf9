//! What was served, asked and accepted in a run.

ghost use Rattle.std.specs.Prelude.{◌≡◌, ◌++◌, IfOk, OnOk, map, option_to_list, reverse};
ghost use Rattle.osc_run.specs.History.{history, questions, question_in, acceptances, acceptance_in};

use crate::noted::{Actor, Noted};
use osc_model::{Bytes, ClientResult, ContextName, Entry, Reply};
use std::alloc::{AllocError, Global};
use std::fmt;
use std::marker::Model;

/// A request that a client sealed or, in a lie, its holder. Contracts see a record of the five.
#[derive(Drop)]
pub struct Question<'a> {
    /// The client's number.
    pub by: usize,
    /// Whether the client's holder sealed it in a lie.
    pub lied: bool,
    /// The name of the security context.
    pub context: &'a ContextName,
    /// The sender sequence number (RFC 8613 section 7.2).
    pub number: u64,
    /// The plaintext (RFC 8613 section 5.3).
    pub plaintext: &'a Bytes,
}

impl<'a> Model for Question<'a> {
    ghost use Rattle.osc_run.specs.History.{Question as Asked};

    ghost Value = { Asked };

    ghost view = { λ q. record { by = q.by; lied = q.lied; context = q.context.now; number = q.number; plaintext = q.plaintext.now } };
}

// What was sealed isn't printed.
impl<'a> fmt::Debug for Question<'a> {
    fn fmt<W: fmt::Write>(&self, f: &mut fmt::Formatter<W>) -> fmt::Result {
        f.write_str("Question")
    }
}

/// A reply that a client accepted as that of a request of its own. Contracts see a record of the four.
#[derive(Drop)]
pub struct Acceptance<'a> {
    /// The client's number.
    pub by: usize,
    /// The name of the security context.
    pub context: &'a ContextName,
    /// The sender sequence number of the request (RFC 8613 section 7.2).
    pub number: u64,
    /// The reply.
    pub reply: &'a Reply,
}

impl<'a> Model for Acceptance<'a> {
    ghost use Rattle.osc_run.specs.History.{Acceptance as Accepted};

    ghost Value = { Accepted };

    ghost view = { λ a. record { by = a.by; context = a.context.now; number = a.number; reply = a.reply.now } };
}

// What was opened isn't printed.
impl<'a> fmt::Debug for Acceptance<'a> {
    fn fmt<W: fmt::Write>(&self, f: &mut fmt::Formatter<W>) -> fmt::Result {
        f.write_str("Acceptance")
    }
}

/// The requests that were served in these steps, of which the oldest is first.
pub(crate) fn served(alloc: Global, steps: &[Noted]) -> Result<Vec<&Entry>, AllocError>
    ensures { IfOk result (λ all. map (λ entry. entry.now) all.items ≡ history (reverse steps.now)) }
{
    let mut all = Vec::new(alloc);
    for step in steps {
        push_some(&mut all, step.notes().served())?;
    }
    Ok(all)
}

/// The requests that were asked in these steps, of which the oldest is first.
pub(crate) fn asked(alloc: Global, steps: &[Noted]) -> Result<Vec<Question<'_>>, AllocError>
    ensures { IfOk result (λ all. all.items ≡ questions (reverse steps.now)) }
{
    let mut all = Vec::new(alloc);
    for step in steps {
        push_some(&mut all, question_of(step))?;
    }
    Ok(all)
}

/// The replies that were accepted in these steps, of which the oldest is first.
pub(crate) fn accepted(alloc: Global, steps: &[Noted]) -> Result<Vec<Acceptance<'_>>, AllocError>
    ensures { IfOk result (λ all. all.items ≡ acceptances (reverse steps.now)) }
{
    let mut all = Vec::new(alloc);
    for step in steps {
        push_some(&mut all, acceptance_of(step))?;
    }
    Ok(all)
}

/// Adds the one that is there, if one is.
fn push_some<T: Drop>(list: &mut Vec<T>, item: Option<T>) -> Result<(), AllocError>
    ensures { OnOk result (list.new.items ≡ list.old.items ++ option_to_list item) }
{
    if let Some(item) = item {
        list.push(item)?;
    }
    Ok(())
}

/// The request that a step asked, if it did: of a client's seal.
fn question_of(step: &Noted) -> Option<Question<'_>>
    ensures { result ≡ question_in step.now.actor step.now.lied step.now.notes.seals }
{
    match (step.actor(), step.notes().seals()) {
        (Actor::Client(by), Some(sealed)) => Some(Question {
            by,
            lied: step.lied(),
            context: &sealed.context,
            number: sealed.number,
            plaintext: &sealed.plaintext,
        }),
        _ => None,
    }
}

/// The reply that a step accepted, if it did: where a client's result is an answer, of what it opened.
fn acceptance_of(step: &Noted) -> Option<Acceptance<'_>>
    ensures { result ≡ acceptance_in step.now.actor step.now.notes.result step.now.notes.opens }
{
    match (step.actor(), step.notes().result(), step.notes().opens()) {
        (Actor::Client(by), Some(ClientResult::Answer(reply)), Some(opened)) => Some(Acceptance {
            by,
            context: &opened.context,
            number: opened.number,
            reply,
        }),
        _ => None,
    }
}
