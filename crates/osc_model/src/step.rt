//! What one event at a node did.
ghost use Rattle.std.specs.Prelude.{◌≡◌, ◌+◌, ◌≤◌, [], ◌++◌, ◌∷◌, IfErr, IfOk, IfSome, OnErr, OnOk, length, vec_capacity, vec_len};
ghost use Rattle.std.specs.Option.{option_to_list};
ghost use Rattle.osc_model.specs.Datagrams.{listed};
ghost use Rattle.osc_model.specs.Step.{refuses, sends};
ghost use Rattle.osc_model.specs.StepNotes.{quiet_or_lost};

use crate::associated_data::AssociatedData;
use crate::bytes::Bytes;
use crate::code::Code;
use crate::context::Side;
use crate::node::{Moment, Peer};
use crate::reply::Reply;
use crate::request::Request;
use crate::shared_name::SharedName;
use crate::step_notes::StepNotes;
use std::alloc::{AllocError, Global};
use std::marker::Model;
use std::{fmt, mem, slice};

/// One use of a key: what was sealed or opened, and under which name.
#[derive(Clone, PartialEq, Eq)]
pub struct Note {
    /// The name of the security context.
    pub context: SharedName,
    /// The end that sealed or opened.
    pub side: Side,
    /// The sender sequence number of the request, or of the one that is answered (RFC 8613 section 7.2).
    pub number: u64,
    /// The nonce (RFC 8613 section 5.2).
    pub nonce: [u8; 13],
    /// The associated data (RFC 8613 section 5.4).
    pub aad: AssociatedData,
    /// The plaintext (RFC 8613 section 5.3).
    pub plaintext: Bytes,
}

impl Drop for Note {
    fn drop(self) {
        let Note {
            context: _,
            side: _,
            number: _,
            nonce: _,
            aad: _,
            plaintext: _,
        } = self;
    }
}

// What was sealed or opened isn't printed.
impl fmt::Debug for Note {
    fn fmt<W: fmt::Write>(&self, f: &mut fmt::Formatter<W>) -> fmt::Result {
        f.write_str("Note")
    }
}

/// A protected request that was served.
#[derive(Clone, PartialEq, Eq)]
pub struct Entry {
    /// The name of the context that opened it.
    pub context: SharedName,
    /// The sender sequence number that the client gave the request.
    pub number: u64,
    /// What was opened.
    pub plaintext: Bytes,
    /// What was opened, as it is read: a request, or the code of the error that answers what is no request (RFC 8613 section 8.2).
    pub request: Result<Request, Code>,
    /// When it was served.
    pub moment: Moment,
    /// What it was answered.
    pub reply: Reply,
}

impl Drop for Entry {
    fn drop(self) {
        let Entry {
            context: _,
            number: _,
            plaintext: _,
            request: _,
            moment: _,
            reply: _,
        } = self;
    }
}

// What was opened isn't printed.
impl fmt::Debug for Entry {
    fn fmt<W: fmt::Write>(&self, f: &mut fmt::Formatter<W>) -> fmt::Result {
        f.write_str("Entry")
    }
}

/// How something that a client began went on.
#[derive(Clone, Debug, PartialEq, Eq, Drop)]
pub enum ClientResult {
    /// The exchange made a security context.
    Made,
    /// The request was answered, and the answer opened.
    Answer(Reply),
    /// What was begun ended with an unprotected answer of this code, or a Reset, as code 0.00.
    Unverified(Code),
    /// No answer came in time.
    TimedOut,
    /// It wasn't begun, or ended, for the reason of this number.
    Refused(u8),
}

/// Why a request isn't served.
#[derive(Clone, Copy, Debug, PartialEq, Eq)]
pub struct RefusedRequest {
    /// The code that it was answered.
    pub code: Code,
    /// The number of the reason, where the code alone doesn't tell it.
    pub reason: Option<u8>,
}

/// A datagram to send.
#[derive(Clone, Debug, PartialEq, Eq, Drop)]
pub struct Datagram {
    /// To whom.
    pub to: Peer,
    /// The payload of the UDP datagram.
    pub bytes: Bytes,
}

/// Datagrams where they are kept: one alone takes no heap.
#[derive(Drop)]
enum OneOrMany {
    One(Global, Datagram),
    Many(Vec<Datagram>),
}

/// Datagrams in the order in which they are sent; contracts see the list. One alone takes no heap.
pub struct Datagrams {
    kept: OneOrMany,
}

impl Drop for Datagrams {
    fn drop(self) {
        let Datagrams { kept: _ } = self;
    }
}

impl fmt::Debug for Datagrams {
    fn fmt<W: fmt::Write>(&self, f: &mut fmt::Formatter<W>) -> fmt::Result {
        self.as_slice().fmt(f)
    }
}

impl Model for Datagrams {
    ghost use Rattle.std.specs.Prelude.{List};
    ghost use Rattle.osc_model.specs.declared.step.Datagram.{Datagram as Sent};
    ghost use Rattle.osc_model.specs.Datagrams.{listed};

    ghost Value = { List Sent };

    ghost view = { λ d. listed d.kept };
}

impl Datagrams {
    /// No datagrams.
    pub fn new(alloc: Global) -> Self
        ensures { result ≡ [] }
    {
        Datagrams {
            kept: OneOrMany::Many(Vec::new(alloc)),
        }
    }

    /// This datagram alone; takes no memory.
    pub fn one(alloc: Global, datagram: Datagram) -> Datagrams
        ensures { result ≡ datagram ∷ [] }
    {
        Datagrams {
            kept: OneOrMany::One(alloc, datagram),
        }
    }

    /// These datagrams, which are not copied.
    pub fn from_vec(items: Vec<Datagram>) -> Datagrams
        ensures { result ≡ items.items }
    {
        Datagrams {
            kept: OneOrMany::Many(items),
        }
    }

    /// Adds one at the end; without memory all stays as it was. The first takes none.
    pub fn push(&mut self, datagram: Datagram) -> Result<(), AllocError>
        ensures ok { OnOk result (self.new ≡ self.old ++ datagram ∷ []) }
        ensures err { OnErr result (self.new ≡ self.old) }
    {
        push(&mut self.kept, datagram)
    }

    /// The datagrams, lent.
    pub fn as_slice(&self) -> &[Datagram]
        ensures { result.now ≡ self.now }
    {
        match &self.kept {
            OneOrMany::One(_, datagram) => slice::from_ref(datagram),
            OneOrMany::Many(items) => items.as_slice(),
        }
    }

    /// The datagrams: one that is kept alone, and the others after it. They are not copied, and no memory is taken.
    pub fn into_parts(self) -> (Option<Datagram>, Vec<Datagram>)
        ensures { option_to_list result.0 ++ result.1.items ≡ self }
    {
        let Datagrams { kept } = self;
        match kept {
            OneOrMany::One(alloc, datagram) => (Some(datagram), Vec::new(alloc)),
            OneOrMany::Many(items) => (None, items),
        }
    }

    /// The datagrams in a vector that has room for `more` others; without memory they come back as they are.
    pub fn into_vec(self, more: usize) -> Result<Vec<Datagram>, Datagrams>
        ensures ok { IfOk result (λ items. (items.items ≡ self) × (vec_len items + more ≤ vec_capacity items)) }
        ensures err { IfErr result (λ datagrams. datagrams ≡ self) }
    {
        let Datagrams { kept } = self;
        match kept {
            OneOrMany::One(alloc, datagram) => match room_after_one(alloc, more) {
                Some(mut items) => {
                    items.push_reserved(datagram);
                    Ok(items)
                }
                None => Err(Datagrams::one(alloc, datagram)),
            },
            OneOrMany::Many(mut items) => match items.reserve(more) {
                Ok(()) => Ok(items),
                Err(_) => Err(Datagrams::from_vec(items)),
            },
        }
    }
}

/// The allocator of the datagrams.
fn alloc_of(kept: &OneOrMany) -> Global {
    match kept {
        OneOrMany::One(alloc, _) => *alloc,
        OneOrMany::Many(items) => *items.allocator(),
    }
}

/// Adds one at the end; without memory all stays as it was.
fn push(kept: &mut OneOrMany, datagram: Datagram) -> Result<(), AllocError>
    ensures ok { OnOk result (listed kept.new ≡ listed kept.old ++ datagram ∷ []) }
    ensures err { OnErr result (listed kept.new ≡ listed kept.old) }
{
    let none = OneOrMany::Many(Vec::new(alloc_of(kept)));
    let (now, done) = with(mem::replace(kept, none), datagram);
    *kept = now;
    done
}

/// The same and one more at the end, or, without memory, the same.
fn with(kept: OneOrMany, datagram: Datagram) -> (OneOrMany, Result<(), AllocError>)
    ensures ok { OnOk result.1 (listed result.0 ≡ listed kept ++ datagram ∷ []) }
    ensures err { OnErr result.1 (listed result.0 ≡ listed kept) }
{
    match kept {
        OneOrMany::One(alloc, first) => match room_after_one(alloc, 1) {
            Some(mut items) => {
                items.push_reserved(first);
                items.push_reserved(datagram);
                (OneOrMany::Many(items), Ok(()))
            }
            None => (OneOrMany::One(alloc, first), Err(AllocError)),
        },
        OneOrMany::Many(items) if items.is_empty() => {
            (OneOrMany::One(*items.allocator(), datagram), Ok(()))
        }
        OneOrMany::Many(mut items) => match items.push(datagram) {
            Ok(()) => (OneOrMany::Many(items), Ok(())),
            Err(_) => (OneOrMany::Many(items), Err(AllocError)),
        },
    }
}

/// Room for one and `more` others.
fn room_after_one(alloc: Global, more: usize) -> Option<Vec<Datagram>>
    ensures { IfSome result (λ items. (items.items ≡ []) × (vec_len items ≡ 0) × (more + 1 ≤ vec_capacity items)) }
{
    Vec::with_capacity(alloc, more.checked_add(1)?).ok()
}

/// What one event at a node did, beside changing the node.
#[derive(Debug, Drop)]
pub struct Step {
    /// What is sent.
    pub out: Datagrams,
    /// What was sealed, opened, served, learnt, drawn, refused and lost.
    pub notes: StepNotes,
}

impl Step {
    /// A step that sends these and does nothing else; takes no memory.
    pub fn sending(out: Datagrams) -> Step
        ensures { result ≡ sends out }
    {
        Step {
            out,
            notes: StepNotes::quiet(),
        }
    }

    /// A step at a tick that sends these, and whether what was due was lost for lack of memory; takes no memory.
    pub fn of_tick(out: Datagrams, lost: bool) -> Step
        ensures { result ≡ record { out = out; notes = quiet_or_lost lost } }
    {
        Step {
            out,
            notes: StepNotes::quiet().with_lost(lost),
        }
    }

    /// A step that answers a request by these, since it refuses it, and does nothing else; takes no memory.
    pub fn refusing(why: RefusedRequest, out: Datagrams) -> Step
        ensures { result ≡ refuses why out }
    {
        Step {
            out,
            notes: StepNotes::quiet().with_refused(why),
        }
    }
}
