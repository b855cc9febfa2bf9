//! What is kept of a world's events.
ghost use Rattle.std.specs.Prelude.{◌≡◌, ◌≤◌, ◌+◌, ◌-◌, ◌++◌, [], IfOk, OnOk, length, map, position, vec_capacity, vec_len};
ghost use Rattle.std.specs.Option.{option_to_list};
ghost use Rattle.osc_world.specs.Log.{HasRoom, IsKept, delivered, first_waiting, number_of, sent_by, sent_from, settled, steps_with, waiting};

use crate::event::What;
use crate::nodes::StepTaken;
use osc_model::{Bytes, Datagram, Datagrams, Peer};
use osc_run::Notes;
use std::alloc::{AllocError, Global};
use std::marker::Model;

/// A datagram that was sent.
pub struct SentDatagram {
    /// From where.
    pub from: Peer,
    /// To whom.
    pub to: Peer,
    /// The payload of the UDP datagram.
    pub bytes: Bytes,
    /// Whether it was neither delivered nor dropped.
    pub waits: bool,
}

impl Drop for SentDatagram {
    fn drop(self) {
        let SentDatagram {
            from: _,
            to: _,
            bytes: _,
            waits: _,
        } = self;
    }
}

/// The outcome of an event: the number of the step that a node took, from 0, where one did; and the numbers of the datagrams that it
/// sent, from the first to that after the last.
#[derive(Clone, Copy, Debug, PartialEq, Eq)]
pub struct Record {
    /// Which step was taken.
    pub step: Option<usize>,
    /// How many datagrams were sent before.
    pub first: usize,
    /// How many were sent then.
    pub end: usize,
}

/// What is kept of the events: each datagram ever sent, what each step noted, and the outcome of each event.
pub(crate) struct EventLog {
    sent: Vec<SentDatagram>,
    // The number of the first that waits; that of all that were sent, where none does.
    next_waiting: usize,
    notes: Notes,
    records: Vec<Record>,
}

impl Drop for EventLog {
    fn drop(self) {
        let EventLog {
            sent: _,
            next_waiting: _,
            notes: _,
            records: _,
        } = self;
    }
}

impl Model for EventLog {
    ghost use Rattle.std.specs.Prelude.{◌≡◌, ◌-◌, vec_len, vec_capacity};
    ghost use Rattle.osc_world.specs.Log.{LogState, first_waiting};

    ghost Value = { LogState };

    ghost view = { λ l. record {
      sent = l.sent.items;
      steps = l.notes.steps;
      records = l.records.items;
      room_for_sent = vec_capacity l.sent - vec_len l.sent;
      room_for_steps = l.notes.room;
      room_for_records = vec_capacity l.records - vec_len l.records;
    } };

    ghost invariant = { λ l. l.next_waiting ≡ first_waiting l.sent.items };
}

impl EventLog {
    /// Nothing was sent, and nothing happened yet; takes no memory.
    pub fn new(alloc: Global) -> EventLog
        ensures sent { result.sent ≡ [] }
        ensures steps { result.steps ≡ [] }
        ensures records { result.records ≡ [] }
    {
        EventLog {
            sent: Vec::new(alloc),
            next_waiting: 0,
            notes: Notes::new(alloc),
            records: Vec::new(alloc),
        }
    }

    /// Each datagram that was sent.
    pub fn sent(&self) -> &[SentDatagram]
        ensures { result.now ≡ self.now.sent }
    {
        &self.sent
    }

    /// The number of the first datagram that waits, if one does. The work is the same however many were sent.
    pub fn next_waiting(&self) -> Option<usize>
        ensures { result ≡ position (λ datagram. datagram.waits) self.now.sent }
    {
        if self.next_waiting < self.sent.len() {
            Some(self.next_waiting)
        } else {
            None
        }
    }

    /// The numbers of the datagrams that wait, in order of sending.
    pub fn waiting(&self, alloc: Global) -> Result<Vec<usize>, AllocError>
        ensures { IfOk result (λ all. all.items ≡ waiting self.now.sent) }
    {
        self.sent
            .iter()
            .enumerate()
            .filter(|(_, datagram)| datagram.waits)
            .map(|(number, _)| number)
            .collect(alloc)
    }

    /// What the steps noted.
    pub fn notes(&self) -> &Notes
        ensures { result.now.steps ≡ self.now.steps }
    {
        &self.notes
    }

    /// The outcome of each event.
    pub fn records(&self) -> &[Record]
        ensures { result.now ≡ self.now.records }
    {
        &self.records
    }

    /// Takes room for one event more, whose step sends at most this number of datagrams.
    pub fn reserve(&mut self, datagrams: usize) -> Result<(), AllocError>
        ensures sent { self.new.sent ≡ self.old.sent }
        ensures steps { self.new.steps ≡ self.old.steps }
        ensures records { self.new.records ≡ self.old.records }
        ensures room { OnOk result (HasRoom self.new datagrams) }
    {
        self.sent.reserve(datagrams)?;
        self.notes.reserve()?;
        self.records.reserve(1)
    }

    /// Keeps the outcome of an event, for which there is room; takes no memory.
    pub fn keep(&mut self, what: &What, taken: Option<StepTaken>)
        requires { HasRoom self.old (length (sent_by taken)) }
        ensures { IsKept self.old what.now taken self.new }
    {
        self.deliver(what);
        let first = self.sent.len();
        let step = self.add(taken);
        self.records.push_reserved(Record {
            step,
            first,
            end: self.sent.len(),
        });
    }

    /// What is delivered waits no more.
    fn deliver(&mut self, what: &What)
        ensures { self.new ≡ record self.old { sent = delivered what.now self.old.sent } }
    {
        if let What::Deliver { datagram } = what {
            self.settle(*datagram);
        }
    }

    /// The datagram of this number waits no more, if it was sent.
    pub fn settle(&mut self, number: usize)
        ensures { self.new ≡ record self.old { sent = settled number self.old.sent } }
    {
        settle(&mut self.sent, number);
        self.next_waiting = first_from(&self.sent, self.next_waiting);
    }

    /// Adds a step, if one was taken, and what it sent; answers its number.
    fn add(&mut self, taken: Option<StepTaken>) -> Option<usize>
        requires { HasRoom self.old (length (sent_by taken)) }
        ensures number { result ≡ number_of taken self.old.steps }
        ensures sent { self.new.sent ≡ self.old.sent ++ sent_by taken }
        ensures steps { self.new.steps ≡ steps_with taken self.old.steps }
        ensures records { self.new.records ≡ self.old.records }
        ensures room { self.new.room_for_records ≡ self.old.room_for_records }
    {
        let StepTaken { at, noted, out } = taken?;
        let number = self.notes.steps().len();
        self.notes.add(noted);
        send(&mut self.sent, at, out);
        Some(number)
    }
}

/// The datagram of this number waits no more, if it was sent.
fn settle(sent: &mut Vec<SentDatagram>, number: usize)
    ensures items { sent.new.items ≡ settled number sent.old.items }
    ensures room { vec_capacity sent.new - vec_len sent.new ≡ vec_capacity sent.old - vec_len sent.old }
{
    if let Some(datagram) = sent.get_mut(number) {
        datagram.waits = false;
    }
}

/// The number of the first that waits, or of all where none does; none below this number does.
fn first_from(sent: &[SentDatagram], number: usize) -> usize
    requires { number ≤ first_waiting sent.now }
    ensures { result ≡ first_waiting sent.now }
{
    for next in number..sent.len() {
        if sent[next].waits {
            return next;
        }
    }
    sent.len()
}

/// Adds what was sent from there, for which there is room; takes no memory.
fn send(sent: &mut Vec<SentDatagram>, at: Peer, out: Datagrams)
    requires { length out ≤ vec_capacity sent.old - vec_len sent.old }
    ensures { sent.new.items ≡ sent.old.items ++ map (sent_from at) out }
{
    let (first, more) = out.into_parts();
    send_first(sent, at, first);
    send_all(sent, at, more);
}

/// Adds a datagram, if there is one.
fn send_first(sent: &mut Vec<SentDatagram>, at: Peer, first: Option<Datagram>)
    requires { length (option_to_list first) ≤ vec_capacity sent.old - vec_len sent.old }
    ensures items { sent.new.items ≡ sent.old.items ++ map (sent_from at) (option_to_list first) }
    ensures len { vec_len sent.new ≡ vec_len sent.old + length (option_to_list first) }
    ensures capacity { vec_capacity sent.new ≡ vec_capacity sent.old }
{
    if let Some(Datagram { to, bytes }) = first {
        sent.push_reserved(SentDatagram {
            from: at,
            to,
            bytes,
            waits: true,
        });
    }
}

/// Adds these datagrams.
fn send_all(sent: &mut Vec<SentDatagram>, at: Peer, out: Vec<Datagram>)
    requires { length out.items ≤ vec_capacity sent.old - vec_len sent.old }
    ensures { sent.new.items ≡ sent.old.items ++ map (sent_from at) out.items }
{
    for Datagram { to, bytes } in out {
        sent.push_reserved(SentDatagram {
            from: at,
            to,
            bytes,
            waits: true,
        });
    }
}
