//! What is noted of one step of a run.

ghost use Rattle.std.specs.Prelude.{◌≡◌};
ghost use Rattle.osc_run.specs.Notes.{by_server, by_client, by_proxy};

use osc_model::StepNotes;
use std::marker::Model;

/// Whose step it was.
#[derive(Clone, Copy, Debug, PartialEq, Eq)]
pub enum Actor {
    /// The server's.
    Server,
    /// That of the client of this number.
    Client(usize),
    /// That of the proxy of this number.
    Proxy(usize),
}

/// A step as it is noted: whose it was, whether the holder of a client's context sealed what it liked, and what the step sealed,
/// opened, served, learnt and drew. Contracts see a record of the three.
#[derive(Debug)]
pub struct Noted {
    actor: Actor,
    lied: bool,
    notes: StepNotes,
}

impl Drop for Noted {
    fn drop(self) {
        let Noted {
            actor: _,
            lied: _,
            notes: _,
        } = self;
    }
}

impl Model for Noted {
    ghost use Rattle.osc_run.specs.Notes.{Noted as NotedStep};

    ghost Value = { NotedStep };

    ghost view = { λ n. record { actor = n.actor; lied = n.lied; notes = n.notes } };
}

impl Noted {
    /// A step of the server; takes no memory.
    pub fn by_server(notes: StepNotes) -> Noted
        ensures { result ≡ by_server notes }
    {
        Noted {
            actor: Actor::Server,
            lied: false,
            notes,
        }
    }

    /// A step of the client of this number, in which its holder lied or didn't; takes no memory.
    pub fn by_client(number: usize, lied: bool, notes: StepNotes) -> Noted
        ensures { result ≡ by_client number lied notes }
    {
        Noted {
            actor: Actor::Client(number),
            lied,
            notes,
        }
    }

    /// A step of the proxy of this number; takes no memory.
    pub fn by_proxy(number: usize, notes: StepNotes) -> Noted
        ensures { result ≡ by_proxy number notes }
    {
        Noted {
            actor: Actor::Proxy(number),
            lied: false,
            notes,
        }
    }

    /// Whose step it was.
    pub fn actor(&self) -> Actor
        ensures { result ≡ self.now.actor }
    {
        self.actor
    }

    /// Whether the holder of a client's context sealed what it liked.
    pub fn lied(&self) -> bool
        ensures { result ≡ self.now.lied }
    {
        self.lied
    }

    /// What the step sealed, opened, served, learnt and drew.
    pub fn notes(&self) -> &StepNotes
        ensures { result.now ≡ self.now.notes }
    {
        &self.notes
    }
}
