//! The notes of a run.

ghost use Rattle.std.specs.Prelude.{◌≡◌, ◌<◌, ◌≤◌, ◌-◌, ◌↔◌, [], ◌∷◌, IfOk, IsOk, IsTrue, OnOk, OnErr, map, reverse};
ghost use Rattle.osc_run.specs.History.{history, questions, acceptances};
ghost use Rattle.osc_run.specs.Premise.{Premise};

use crate::minted::Minted;
use crate::noted::Noted;
use crate::premise::{are_fresh, have_own_secrets, is_genuine};
use crate::readers::{Acceptance, Question, accepted, asked, served};
use osc_model::Entry;
use std::alloc::{AllocError, Global};
use std::marker::Model;

/// What was noted of each step of a run. Contracts see the list of the steps, the newest first, and the room that was taken for
/// more.
#[derive(Debug)]
pub struct Notes {
    // The oldest first.
    items: Vec<Noted>,
}

impl Drop for Notes {
    fn drop(self) {
        let Notes { items: _ } = self;
    }
}

impl Model for Notes {
    ghost use Rattle.std.specs.Prelude.{reverse, ◌-◌, vec_len, vec_capacity};
    ghost use Rattle.osc_run.specs.Notes.{Kept};

    ghost Value = { Kept };

    ghost view = { λ n. record { steps = reverse n.items.items; room = vec_capacity n.items - vec_len n.items } };
}

impl Notes {
    /// No step; takes no memory.
    pub fn new(alloc: Global) -> Notes
        ensures { result ≡ record { steps = []; room = 0 } }
    {
        Notes {
            items: Vec::new(alloc),
        }
    }

    /// Takes room for one step more, where there is none. The notes stay, and without memory the room too.
    pub fn reserve(&mut self) -> Result<(), AllocError>
        ensures steps { self.new.steps ≡ self.old.steps }
        ensures ok { OnOk result (0 < self.new.room) }
        ensures kept { self.old.room ≤ self.new.room }
        ensures succeeds { 0 < self.old.room → IsOk result }
        ensures err { OnErr result (self.new ≡ self.old) }
    {
        self.items.reserve(1)
    }

    /// Adds a step, the newest, for which there is room; takes no memory.
    #[tactic(auto, using(crate::proofs::NotedSteps::newest))]
    pub fn add(&mut self, noted: Noted)
        requires { 0 < self.old.room }
        ensures { self.new ≡ record { steps = noted ∷ self.old.steps; room = self.old.room - 1 } }
    {
        self.items.push_reserved(noted);
    }

    /// The steps, the oldest first.
    pub fn steps(&self) -> &[Noted]
        ensures { reverse result.now ≡ self.now.steps }
    {
        &self.items
    }

    /// The requests that were served, the oldest first. Without memory there is no list.
    pub fn history(&self, alloc: Global) -> Result<Vec<&Entry>, AllocError>
        ensures { IfOk result (λ all. map (λ entry. entry.now) all.items ≡ history self.now.steps) }
    {
        served(alloc, &self.items)
    }

    /// The requests that clients sealed, or their holders in a lie, the oldest first. Without memory there is no list.
    pub fn asked(&self, alloc: Global) -> Result<Vec<Question<'_>>, AllocError>
        ensures { IfOk result (λ all. all.items ≡ questions self.now.steps) }
    {
        asked(alloc, &self.items)
    }

    /// The replies that clients accepted, the oldest first. Without memory there is no list.
    pub fn accepted(&self, alloc: Global) -> Result<Vec<Acceptance<'_>>, AllocError>
        ensures { IfOk result (λ all. all.items ≡ acceptances self.now.steps) }
    {
        accepted(alloc, &self.items)
    }

    /// Whether what is assumed of a run holds of these steps: whatever opened was sealed before by the other end of its context,
    /// or minted, no drawn nonce came twice, and no two grants share a secret. It takes memory for a set of the drawn nonces, which it gives
    /// back, and is as exact without. Its time mostly grows with the steps, and at worst with their square: an opening is looked for from
    /// the newest step before it on, and without memory a drawn nonce among all before it.
    pub fn premise_holds(&self, minted: &[Minted]) -> bool
        ensures { IsTrue result ↔ Premise minted.now self.now.steps }
    {
        is_genuine(minted, &self.items)
            && are_fresh(*self.items.allocator(), &self.items)
            && have_own_secrets(minted)
    }
}
