//! The marks of a script that was done.
ghost use Rattle.std.specs.Prelude.{◌≡◌, ◌+◌, ◌<◌, ◌^◌, ◌++◌, ◌∷◌, [], IfOk, OnOk, Some, length, option_map};
ghost use Rattle.osc_diagram.specs.Marks as spec;

use crate::play::Played;
use crate::scene::{Scene, has};
use crate::{Arrow, Mark, Way};
use osc_model::{Bytes, ClientResult, Code, Entry, Moment, Note};
use osc_run::{Actor, Noted};
use osc_script::{ClientName, NodeName};
use osc_simulation::{learnt_text, sent_at, served_words, step_of};
use osc_world::{Record, SentDatagram};
use std::alloc::{AllocError, Global};
use std::cmp::min;

/// What is drawn of it, line by line: what comes before the line's events, and then each event's marks.
pub(crate) fn marks_of(alloc: Global, run: &Played) -> Result<Vec<Mark>, AllocError>
    ensures { IfOk result (λ marks. marks.items ≡ spec.marks_of run.now) }
{
    scenes_marks(alloc, run, &run.scenes)
}

fn scenes_marks(alloc: Global, run: &Played, scenes: &[Scene]) -> Result<Vec<Mark>, AllocError>
    ensures { IfOk result (λ marks. marks.items ≡ spec.scenes_marks run.now scenes.now) }
{
    let mut marks = Vec::new(alloc);
    for scene in scenes {
        add_scene(alloc, &mut marks, run, scene)?;
    }
    Ok(marks)
}

fn add_scene(
    alloc: Global,
    marks: &mut Vec<Mark>,
    run: &Played,
    scene: &Scene,
) -> Result<(), AllocError>
    ensures { OnOk result (marks.new.items ≡ marks.old.items ++ spec.scene_marks run.now scene.now) }
{
    add_before(marks, &scene.before)?;
    add_events(alloc, marks, run, scene.moment, events_of(run, scene))
}

fn add_before(marks: &mut Vec<Mark>, before: &Option<Mark>) -> Result<(), AllocError>
    ensures { OnOk result (marks.new.items ≡ marks.old.items ++ spec.before_marks before.now) }
{
    match before {
        Some(mark) => add(marks, mark.clone()?),
        None => Ok(()),
    }
}

fn add(marks: &mut Vec<Mark>, mark: Mark) -> Result<(), AllocError>
    ensures { OnOk result (marks.new.items ≡ marks.old.items ++ mark ∷ []) }
{
    Ok(marks.push(mark)?)
}

// The events of the line.
fn events_of<'a>(run: &'a Played, scene: &Scene) -> &'a [Record]
    ensures { result.now ≡ spec.events_of scene.now run.now.stage.world.records }
{
    between(run.stage.world().records(), scene.first, scene.end)
}

fn between(records: &[Record], first: usize, end: usize) -> &[Record]
    ensures { result.now ≡ spec.between first end records.now }
{
    let end = min(end, records.len());
    &records[min(first, end)..end]
}

// ---- an event

fn add_events(
    alloc: Global,
    marks: &mut Vec<Mark>,
    run: &Played,
    moment: Moment,
    events: &[Record],
) -> Result<(), AllocError>
    ensures { OnOk result (marks.new.items ≡ marks.old.items ++ spec.events_marks run.now moment events.now) }
{
    for event in events {
        add_event(alloc, marks, run, moment, event)?;
    }
    Ok(())
}

// What was served and learnt, and then each datagram that was sent.
fn add_event(
    alloc: Global,
    marks: &mut Vec<Mark>,
    run: &Played,
    moment: Moment,
    event: &Record,
) -> Result<(), AllocError>
    ensures { OnOk result (marks.new.items ≡ marks.old.items ++ spec.event_marks run.now moment event.now) }
{
    let world = run.stage.world();
    let step = step_of(world, event);
    let sent = sent_at(event, world.sent());
    add_step(alloc, marks, run, step)?;
    add_arrows(
        marks,
        &run.lost,
        (moment, inner_of(step, sent)),
        event.first,
        sent,
    )
}

// ---- what a step noted

fn add_step(
    alloc: Global,
    marks: &mut Vec<Mark>,
    run: &Played,
    step: Option<&Noted>,
) -> Result<(), AllocError>
    ensures { OnOk result (marks.new.items ≡ marks.old.items ++ spec.step_marks run.now (option_map (λ step. step.now) step.entry)) }
{
    match step {
        Some(step) => add_notes(alloc, marks, run, step),
        None => Ok(()),
    }
}

fn add_notes(
    alloc: Global,
    marks: &mut Vec<Mark>,
    run: &Played,
    step: &Noted,
) -> Result<(), AllocError>
    ensures { OnOk result (marks.new.items ≡ marks.old.items ++ spec.step_marks run.now (Some step.now)) }
{
    add_served(alloc, marks, run, step.notes().served())?;
    add_learnt(alloc, marks, run, step.actor(), step.notes().result())
}

// What was served, at the server.
fn add_served(
    alloc: Global,
    marks: &mut Vec<Mark>,
    run: &Played,
    served: Option<&Entry>,
) -> Result<(), AllocError>
    ensures { OnOk result (marks.new.items ≡ marks.old.items ++ spec.served_marks run.now (option_map (λ entry. entry.now) served.entry)) }
{
    match served {
        Some(entry) => {
            let mark = served_mark(alloc, run, entry)?;
            add(marks, mark)
        }
        None => Ok(()),
    }
}

fn served_mark(alloc: Global, run: &Played, entry: &Entry) -> Result<Mark, AllocError>
    ensures { IfOk result (λ mark. mark ≡ spec.served_mark run.now entry.now) }
{
    let text = served_words(
        alloc,
        run.names.clients(),
        run.stage.world().minted(),
        entry,
    )?;
    note(alloc, NodeName::Server, &text)
}

// What a client learnt, at the client.
fn add_learnt(
    alloc: Global,
    marks: &mut Vec<Mark>,
    run: &Played,
    actor: Actor,
    learnt: Option<&ClientResult>,
) -> Result<(), AllocError>
    ensures { OnOk result (marks.new.items ≡ marks.old.items ++ spec.learnt_marks run.now actor (option_map (λ learnt. learnt.now) learnt.entry)) }
{
    match (client_of(run, actor), learnt) {
        (Some(client), Some(learnt)) => {
            let mark = learnt_mark(alloc, client, learnt)?;
            add(marks, mark)
        }
        _ => Ok(()),
    }
}

// The client whose step it was, if it was one's.
fn client_of(run: &Played, actor: Actor) -> Option<ClientName>
    ensures { result ≡ spec.client_of run.now actor }
{
    match actor {
        Actor::Client(number) => run.names.clients().get(number).copied(),
        Actor::Server | Actor::Proxy(_) => None,
    }
}

fn learnt_mark(alloc: Global, client: ClientName, learnt: &ClientResult) -> Result<Mark, AllocError>
    ensures { IfOk result (λ mark. mark ≡ spec.learnt_mark client learnt.now) }
{
    let text = learnt_text(alloc, learnt)?;
    note(alloc, NodeName::Client(client), &text)
}

fn note(alloc: Global, at: NodeName, text: &str) -> Result<Mark, AllocError>
    ensures { IfOk result (λ mark. mark ≡ spec.note_at at text.now) }
{
    let text = Bytes::from_slice(alloc, text.as_bytes())?;
    Ok(Mark::Note {
        at: at.address(),
        text,
    })
}

// ---- what an event sent

// The code in what the step sealed, where it sealed for the one datagram that was sent.
fn inner_of(step: Option<&Noted>, sent: &[SentDatagram]) -> Option<Code>
    ensures { result ≡ spec.inner_of (option_map (λ step. step.now) step.entry) sent.now }
{
    match step {
        Some(step) if sent.len() == 1 => sealed_code(step.notes().seals()),
        _ => None,
    }
}

fn sealed_code(seals: Option<&Note>) -> Option<Code>
    ensures { result ≡ spec.sealed_code (option_map (λ note. note.now) seals.entry) }
{
    match seals {
        Some(note) => first_code(note.plaintext.as_slice()),
        None => None,
    }
}

fn first_code(plaintext: &[u8]) -> Option<Code>
    ensures { result ≡ spec.first_code plaintext.now }
{
    match plaintext.first() {
        Some(code) => Some(Code(*code)),
        None => None,
    }
}

// An arrow for each datagram, at this moment and with this code inside, after as many that were sent before.
fn add_arrows(
    marks: &mut Vec<Mark>,
    lost: &[usize],
    said: (Moment, Option<Code>),
    before: usize,
    datagrams: &[SentDatagram],
) -> Result<(), AllocError>
    requires { before + length datagrams.now < 2 ^ 64 }
    ensures { OnOk result (marks.new.items ≡ marks.old.items ++ spec.arrows lost.now said.0 said.1 before datagrams.now) }
{
    let mut number = before;
    for datagram in datagrams {
        add_arrow(marks, lost, said, number, datagram)?;
        number += 1;
    }
    Ok(())
}

fn add_arrow(
    marks: &mut Vec<Mark>,
    lost: &[usize],
    said: (Moment, Option<Code>),
    number: usize,
    datagram: &SentDatagram,
) -> Result<(), AllocError>
    requires { number + 1 < 2 ^ 64 }
    ensures { OnOk result (marks.new.items ≡ marks.old.items ++ spec.arrow lost.now said.0 said.1 number datagram.now ∷ []) }
{
    let (moment, inner) = said;
    let bytes = datagram.bytes.clone()?;
    add(
        marks,
        Mark::Arrow(Arrow {
            way: Way::Sent(number + 1),
            moment,
            from: datagram.from,
            to: datagram.to,
            bytes,
            inner,
            arrives: !datagram.waits && !has(lost, number),
        }),
    )
}
