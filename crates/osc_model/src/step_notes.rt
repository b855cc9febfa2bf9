//! What one event at a node did, beside sending and changing the node.
ghost use Rattle.std.specs.Prelude.{◌≡◌, Some, option_map};
ghost use Rattle.osc_model.specs.StepNotes.{quiet};

use crate::shared_bytes::SharedBytes;
use crate::step::{ClientResult, Entry, Note, RefusedRequest};
use std::marker::Model;

/// What a step sealed, opened, served, learnt, drew, refused and lost, and whose token it went by: mostly nothing. Contracts see a record of the eight.
#[derive(Debug)]
pub struct StepNotes {
    seals: Option<Note>,
    opens: Option<Note>,
    served: Option<Entry>,
    result: Option<ClientResult>,
    drawn: Option<[u8; 8]>,
    refused: Option<RefusedRequest>,
    lost: bool,
    holder: Option<SharedBytes>,
}

impl Drop for StepNotes {
    fn drop(self) {
        let StepNotes {
            seals: _,
            opens: _,
            served: _,
            result: _,
            drawn: _,
            refused: _,
            lost: _,
            holder: _,
        } = self;
    }
}

impl Model for StepNotes {
    ghost use Rattle.osc_model.specs.StepNotes.{StepNotes as Noted};

    ghost Value = { Noted };

    ghost view = { λ n. record { seals = n.seals; opens = n.opens; served = n.served; result = n.result; drawn = n.drawn; refused = n.refused; lost = n.lost; holder = n.holder } };
}

impl StepNotes {
    /// Nothing of it; takes no memory.
    pub fn quiet() -> StepNotes
        ensures { result ≡ quiet }
    {
        StepNotes {
            seals: None,
            opens: None,
            served: None,
            result: None,
            drawn: None,
            refused: None,
            lost: false,
            holder: None,
        }
    }

    /// A request was opened and served under a context of the token of this id, and its answer sealed; takes no memory.
    pub fn of_request(
        sealed: Note,
        opened: Note,
        entry: Entry,
        holder: Option<SharedBytes>,
    ) -> StepNotes
        ensures { result ≡ record quiet { seals = Some sealed; opens = Some opened; served = Some entry; holder = holder } }
    {
        StepNotes {
            seals: Some(sealed),
            opens: Some(opened),
            served: Some(entry),
            result: None,
            drawn: None,
            refused: None,
            lost: false,
            holder,
        }
    }

    /// The same, and this was sealed.
    pub fn with_seal(mut self, note: Note) -> StepNotes
        ensures { result ≡ record self { seals = Some note } }
    {
        self.seals = Some(note);
        self
    }

    /// The same, and this was opened.
    pub fn with_open(mut self, note: Note) -> StepNotes
        ensures { result ≡ record self { opens = Some note } }
    {
        self.opens = Some(note);
        self
    }

    /// The same, and this was served.
    pub fn with_entry(mut self, entry: Entry) -> StepNotes
        ensures { result ≡ record self { served = Some entry } }
    {
        self.served = Some(entry);
        self
    }

    /// The same, and a client learnt this.
    pub fn with_result(mut self, learnt: ClientResult) -> StepNotes
        ensures { result ≡ record self { result = Some learnt } }
    {
        self.result = Some(learnt);
        self
    }

    /// The same, and an exchange drew this nonce.
    pub fn with_drawn(mut self, nonce: [u8; 8]) -> StepNotes
        ensures { result ≡ record self { drawn = Some nonce } }
    {
        self.drawn = Some(nonce);
        self
    }

    /// The same, and a request was refused for this.
    pub fn with_refused(mut self, why: RefusedRequest) -> StepNotes
        ensures { result ≡ record self { refused = Some why } }
    {
        self.refused = Some(why);
        self
    }

    /// The same, and whether what was due was lost for lack of memory.
    pub fn with_lost(mut self, lost: bool) -> StepNotes
        ensures { result ≡ record self { lost = lost } }
    {
        self.lost = lost;
        self
    }

    /// The same, and it went by the token of this id.
    pub fn with_holder(mut self, holder: SharedBytes) -> StepNotes
        ensures { result ≡ record self { holder = Some holder } }
    {
        self.holder = Some(holder);
        self
    }

    /// What was sealed, if anything was.
    pub fn seals(&self) -> Option<&Note>
        ensures { option_map (λ note. note.now) result ≡ self.now.seals }
    {
        self.seals.as_ref()
    }

    /// What was opened, if anything was.
    pub fn opens(&self) -> Option<&Note>
        ensures { option_map (λ note. note.now) result ≡ self.now.opens }
    {
        self.opens.as_ref()
    }

    /// The request that was served, if one was.
    pub fn served(&self) -> Option<&Entry>
        ensures { option_map (λ entry. entry.now) result ≡ self.now.served }
    {
        self.served.as_ref()
    }

    /// What a client learnt, if it did.
    pub fn result(&self) -> Option<&ClientResult>
        ensures { option_map (λ learnt. learnt.now) result ≡ self.now.result }
    {
        self.result.as_ref()
    }

    /// The nonce that an exchange drew, if one did.
    pub fn drawn(&self) -> Option<[u8; 8]>
        ensures { result ≡ self.now.drawn }
    {
        self.drawn
    }

    /// Why a request was refused, if one was.
    pub fn refused(&self) -> Option<RefusedRequest>
        ensures { result ≡ self.now.refused }
    {
        self.refused
    }

    /// Whether what was due was lost for lack of memory, as on the way.
    pub fn lost(&self) -> bool
        ensures { result ≡ self.now.lost }
    {
        self.lost
    }

    /// The id of the token that a post was agreed to with, or that made the context of the request that was served, if either was.
    pub fn holder(&self) -> Option<&[u8]>
        ensures { option_map (λ id. id.now) result ≡ self.now.holder }
    {
        match &self.holder {
            Some(id) => Some(id.as_slice()),
            None => None,
        }
    }
}
