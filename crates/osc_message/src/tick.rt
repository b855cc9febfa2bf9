//! What a tick does to the open messages (RFC 7252 sections 4.2 and 4.8): first what is due of each, and then the changes. Memory is taken for
//! what is sent alone: without it that is lost, and all else is done.
ghost use Rattle.std.specs.Prelude.{◌≡◌, ◌≤◌, ◌<◌, ◌+◌, ◌&&◌, [], ◌∷◌, ◌++◌, List, length, take, drop, false, Some, IfSome, IfOk, OnOk, vec_len, vec_capacity};
ghost use Rattle.std.specs.List.{All, filter_map, list_any, zip};
ghost use Rattle.std.specs.Option.{option_to_list};
ghost use Rattle.osc_model.specs.declared.step.Datagram.{Datagram as AnyDatagram};
ghost use Rattle.osc_message.specs.Bounds.{IsBounded};
ghost use Rattle.osc_message.specs.Queue.{ArePlaced, IsSoundQueue, messages};
ghost use Rattle.osc_message.specs.Sending.{GoesOut};
ghost use Rattle.osc_message.specs.Confirmables.{Open as AnyOpen, is_named as is_named_of};
ghost use Rattle.osc_message.specs.Pace.{Pace as AnyPace, slowed};
ghost use Rattle.osc_message.specs.Ticks.{datagram_of, given_up_of, gives_up as gives_up_one, names, repeated_to, sent_again, after, dues_of, ticked, tick_sends, tick_gives_up, tick_repeats};
ghost use Rattle.osc_message.specs.declared.queued.Queued.{Queued as AnyQueued};

use crate::confirmable::{Open, Sent, is_named};
use crate::deadline::is_due;
use crate::due::{Due, due_of, is_given_up};
use crate::pace::Pace;
use crate::queued::{Queued, place_again};
use osc_model::{Datagram, Datagrams, Moment, Peer};
use std::alloc::{AllocError, Global};

/// The datagram of a message that goes out now, if it does.
fn copy_of(message: &Open, due: Due) -> Result<Option<Datagram>, AllocError>
    ensures { IfOk result (λ copy. copy ≡ datagram_of (message.now, due)) }
{
    match due {
        Due::Send => Ok(Some(Datagram {
            to: message.to,
            bytes: message.bytes.clone()?,
        })),
        _ => Ok(None),
    }
}

fn add_copy(out: &mut Datagrams, message: &Open, due: Due) -> Result<(), AllocError>
    ensures { OnOk result (out.new ≡ out.old ++ option_to_list (datagram_of (message.now, due))) }
{
    if let Some(copy) = copy_of(message, due)? {
        out.push(copy)?;
    }
    Ok(())
}

/// What is sent so far, and the datagram of this message, where it goes out. Without memory for it nothing of it all is sent.
fn with_copy(out: Option<Datagrams>, message: &Open, due: Due) -> Option<Datagrams>
    ensures { IfSome result (λ more. (before : List AnyDatagram) × (out ≡ Some before) × (more ≡ before ++ option_to_list (datagram_of (message.now, due)))) }
{
    let mut out = out?;
    match add_copy(&mut out, message, due) {
        Ok(()) => Some(out),
        Err(_) => None,
    }
}

/// How many messages are given up where this is due of one.
fn count_given_up(due: Due) -> usize
    ensures value { (message : AnyOpen) → result ≡ length (option_to_list (given_up_of (message, due))) }
    ensures bound { result ≤ 1 }
{
    match due {
        Due::GiveUp => 1,
        _ => 0,
    }
}

/// What a tick does, before it is done.
#[derive(Drop)]
struct Plan {
    /// What is sent, in order; none without memory for it.
    out: Option<Datagrams>,
    /// How many are given up.
    given_up: usize,
}

/// Writes down what is due of each message, in order, and answers what that sends, and how many it gives up. The work grows with the number
/// of open messages.
fn make_plan(dues: &mut Vec<Due>, alloc: Global, pace: &Pace, now: Moment, all: &[Queued]) -> Plan
    requires sound { IsSoundQueue pace.now all.now }
    requires room { length all.now ≤ vec_capacity dues.old }
    ensures dues { dues.new.items ≡ filter_map (λ pair. Some pair.1) (dues_of pace.now now (messages all.now)) }
    ensures capacity { vec_capacity dues.new ≡ vec_capacity dues.old }
    ensures out { IfSome result.out (λ out. out ≡ tick_sends pace.now now (messages all.now)) }
    ensures given_up { result.given_up ≡ length (tick_gives_up pace.now now (messages all.now)) }
{
    dues.clear();
    let mut out = Some(Datagrams::new(alloc));
    let mut given_up = 0;
    for index in 0..all.len() {
        let queued = &all[index];
        let due = due_of(pace, now, queued);
        dues.push_reserved(due);
        out = with_copy(out, &queued.message, due);
        given_up += count_given_up(due);
    }
    Plan { out, given_up }
}

/// A peer to which a message is sent again is slow.
fn slow_for(pace: &mut Pace, message: &Open, due: Due)
    ensures { pace.new ≡ slowed (option_to_list (repeated_to (message.now, due))) pace.old }
{
    if let Due::Send = due {
        if message.sent.is_some() {
            pace.slow_down(message.to);
        }
    }
}

/// Each peer to which a message is sent again is slow.
fn slow_all(pace: &mut Pace, all: &[Queued], dues: &[Due])
    requires { length dues.now ≡ length all.now }
    ensures { pace.new ≡ slowed (filter_map repeated_to (zip (messages all.now) dues.now)) pace.old }
{
    for index in 0..all.len() {
        slow_for(pace, &all[index].message, dues[index]);
    }
}

/// Whether the message is named so, and is given up now.
fn is_given_up_named(now: Moment, message: &Open, peer: Peer, id: u16) -> bool
    requires { IsBounded message.now }
    ensures { result ≡ (is_named_of peer id message.now && gives_up_one now message.now) }
{
    is_named(message, peer, id) && is_given_up(now, message)
}

/// Whether a message that is named so is given up now.
pub(crate) fn gives_up(now: Moment, all: &[Queued], peer: Peer, id: u16) -> bool
    requires { All IsBounded (messages all.now) }
    ensures { (pace : AnyPace) → result ≡ list_any (names peer id) (tick_gives_up pace now (messages all.now)) }
{
    let mut found = false;
    for index in 0..all.len() {
        found = found || is_given_up_named(now, &all[index].message, peer, id);
    }
    found
}

/// It goes out: for the first time, or once more.
fn go_out(message: &mut Open, now: Moment)
    requires { IsBounded message.old }
    ensures { message.new ≡ record message.old { sent = Some (sent_again now message.old.sent) } }
{
    message.sent = Some(match message.sent {
        None => Sent {
            at: now,
            repeats: 0,
        },
        Some(sent) => Sent {
            at: sent.at,
            repeats: sent.repeats + 1,
        },
    });
}

/// Makes what is due of the message at this place of the list, and answers the place of the next one. Where one is given up, those to its
/// peer that were made later are one place further on.
fn change(sending: &mut Vec<Queued>, place: usize, due: Due, now: Moment) -> usize
    requires place { place < vec_len sending.old }
    requires bounded { All IsBounded (messages (drop place sending.old.items)) }
    ensures front { (queued : AnyQueued) (later : List AnyQueued) → drop place sending.old.items ≡ queued ∷ later
        → messages (take result sending.new.items) ≡ messages (take place sending.old.items) ++ option_to_list (after now (queued.message, due)) }
    ensures back { (queued : AnyQueued) (later : List AnyQueued) → drop place sending.old.items ≡ queued ∷ later
        → messages (drop result sending.new.items) ≡ messages later }
    ensures placed { ArePlaced sending.old.items → ArePlaced sending.new.items }
    ensures moved { vec_len sending.old + result ≡ vec_len sending.new + place + 1 }
    ensures len { vec_len sending.new ≤ vec_len sending.old }
    ensures capacity { vec_capacity sending.new ≡ vec_capacity sending.old }
{
    match due {
        Due::Keep => place + 1,
        Due::Send => {
            go_out(&mut sending[place].message, now);
            place + 1
        }
        Due::GiveUp => {
            let given_up = sending.remove(place);
            place_again(sending, given_up.message.to);
            place
        }
    }
}

/// Makes what is due of each message.
pub(crate) fn apply(sending: &mut Vec<Queued>, dues: &[Due], now: Moment)
    requires bounded { All IsBounded (messages sending.old.items) }
    requires each { length dues.now ≡ vec_len sending.old }
    ensures items { messages sending.new.items ≡ filter_map (after now) (zip (messages sending.old.items) dues.now) }
    ensures placed { ArePlaced sending.old.items → ArePlaced sending.new.items }
    ensures len { vec_len sending.new ≤ vec_len sending.old }
    ensures capacity { vec_capacity sending.new ≡ vec_capacity sending.old }
{
    let mut place = 0;
    for due in dues {
        place = change(sending, place, *due, now);
    }
}

/// What a tick did.
#[derive(Drop)]
pub struct Ticked {
    /// What is sent, in order: all that was due, or nothing where that was lost.
    pub out: Datagrams,
    /// Whether what was due was lost for lack of memory.
    pub lost: bool,
    /// How many were given up.
    pub given_up: usize,
}

/// What the plan sends and gives up, or, without memory for it, that what was due is lost.
fn sent_or_lost(alloc: Global, plan: Plan) -> Ticked
    ensures out { (due : List AnyDatagram) → IfSome plan.out (λ made. made ≡ due) → GoesOut result.lost due result.out }
    ensures given_up { result.given_up ≡ plan.given_up }
{
    let Plan { out, given_up } = plan;
    match out {
        Some(out) => Ticked {
            out,
            lost: false,
            given_up,
        },
        None => Ticked {
            out: Datagrams::new(alloc),
            lost: true,
            given_up,
        },
    }
}

/// Writes down what is due, and does it. What was due is dropped.
fn act(
    pace: &mut Pace,
    sending: &mut Vec<Queued>,
    dues: &mut Vec<Due>,
    alloc: Global,
    now: Moment,
) -> Ticked
    requires sound { IsSoundQueue pace.old sending.old.items }
    requires room { vec_len sending.old ≤ vec_capacity dues.old }
    ensures out { GoesOut result.lost (tick_sends pace.old now (messages sending.old.items)) result.out }
    ensures given_up { result.given_up ≡ length (tick_gives_up pace.old now (messages sending.old.items)) }
    ensures items { messages sending.new.items ≡ ticked pace.old now (messages sending.old.items) }
    ensures pace { pace.new ≡ slowed (tick_repeats pace.old now (messages sending.old.items)) pace.old }
    ensures more { pace.new.more ≡ pace.old.more }
    ensures sound { IsSoundQueue pace.new sending.new.items }
    ensures len { vec_len sending.new ≤ vec_len sending.old }
    ensures capacity { vec_capacity sending.new ≡ vec_capacity sending.old }
    ensures dues { vec_capacity dues.new ≡ vec_capacity dues.old }
{
    let plan = make_plan(dues, alloc, pace, now, sending);
    slow_all(pace, sending, dues);
    apply(sending, dues, now);
    sent_or_lost(alloc, plan)
}

/// A tick at which nothing is due.
fn nothing(alloc: Global) -> Ticked
    ensures out { result.out ≡ [] }
    ensures lost { result.lost ≡ false }
    ensures given_up { result.given_up ≡ 0 }
{
    Ticked {
        out: Datagrams::new(alloc),
        lost: false,
        given_up: 0,
    }
}

/// Does what is due, with room to write down what is due of each message. Where nothing is, no memory is taken; without memory what
/// would be sent is lost.
pub(crate) fn tick(
    pace: &mut Pace,
    sending: &mut Vec<Queued>,
    dues: &mut Vec<Due>,
    alloc: Global,
    now: Moment,
) -> Ticked
    requires sound { IsSoundQueue pace.old sending.old.items }
    requires room { vec_len sending.old ≤ vec_capacity dues.old }
    ensures out { GoesOut result.lost (tick_sends pace.old now (messages sending.old.items)) result.out }
    ensures given_up { result.given_up ≡ length (tick_gives_up pace.old now (messages sending.old.items)) }
    ensures items { messages sending.new.items ≡ ticked pace.old now (messages sending.old.items) }
    ensures pace { pace.new ≡ slowed (tick_repeats pace.old now (messages sending.old.items)) pace.old }
    ensures more { pace.new.more ≡ pace.old.more }
    ensures sound { IsSoundQueue pace.new sending.new.items }
    ensures len { vec_len sending.new ≤ vec_len sending.old }
    ensures capacity { vec_capacity sending.new ≡ vec_capacity sending.old }
    ensures dues { vec_capacity dues.new ≡ vec_capacity dues.old }
{
    if is_due(pace, now, sending) {
        act(pace, sending, dues, alloc, now)
    } else {
        nothing(alloc)
    }
}
