//! What a line of a script adds to its diagram.
ghost use Rattle.std.specs.Prelude.{◌≡◌, ◌+◌, ◌<◌, ◌^◌, ◌++◌, ◌∷◌, [], IfOk, OnOk};
ghost use Rattle.osc_diagram.specs.Scenes as spec;

use crate::{Arrow, Mark, Way};
use osc_model::{Bytes, Moment, Peer};
use osc_script::{Line, NodeName};
use osc_simulation::{Names, Stage, datagram_number, what_of};
use osc_world::{SentDatagram, What};
use std::alloc::{AllocError, Global};

/// What a line of a script adds to its diagram.
pub(crate) struct Scene {
    /// What is drawn before its events, if anything is.
    pub before: Option<Mark>,
    /// The moment of its events.
    pub moment: Moment,
    /// How many events there were before.
    pub first: usize,
    /// How many there are after it.
    pub end: usize,
}

impl Drop for Scene {
    fn drop(self) {
        let Scene {
            before: _,
            moment: _,
            first: _,
            end: _,
        } = self;
    }
}

/// What is drawn before the events of a line, where these datagrams were dropped: a moment, a node that starts again, or a datagram that no
/// node sends then.
pub(crate) fn before_of(
    alloc: Global,
    stage: &Stage,
    lost: &[usize],
    names: &Names,
    line: &Line,
) -> Result<Option<Mark>, AllocError>
    ensures { IfOk result (λ before. before ≡ spec.before_of names.now stage.now lost.now line.now) }
{
    match line {
        Line::At { moment } => Ok(Some(Mark::Time(*moment))),
        Line::Restart { node } => starts_again(alloc, *node),
        _ => came_by(alloc, stage, lost, names, line),
    }
}

fn starts_again(alloc: Global, node: NodeName) -> Result<Option<Mark>, AllocError>
    ensures { IfOk result (λ mark. mark ≡ spec.starts_again node) }
{
    let text = Bytes::from_slice(alloc, b"starts again")?;
    Ok(Some(Mark::Note {
        at: node.address(),
        text,
    }))
}

// The datagram that comes by the line, if one does that no node sends then.
fn came_by(
    alloc: Global,
    stage: &Stage,
    lost: &[usize],
    names: &Names,
    line: &Line,
) -> Result<Option<Mark>, AllocError>
    ensures { IfOk result (λ mark. mark ≡ spec.came_by names.now stage.now lost.now line.now) }
{
    match what_of(alloc, names, stage.world().sent(), line)? {
        Some(what) => came(stage, lost, &what),
        None => Ok(None),
    }
}

fn came(stage: &Stage, lost: &[usize], what: &What) -> Result<Option<Mark>, AllocError>
    ensures { IfOk result (λ mark. mark ≡ spec.came stage.now lost.now what.now) }
{
    match what {
        What::Inject { from, to, bytes } => { arrow(Way::Forged, stage.moment, *from, *to, bytes) }
        What::Deliver { datagram } => came_again(stage, lost, *datagram),
        _ => Ok(None),
    }
}

// The datagram of this number comes again, if it came before.
fn came_again(stage: &Stage, lost: &[usize], number: usize) -> Result<Option<Mark>, AllocError>
    ensures { IfOk result (λ mark. mark ≡ spec.came_again stage.now lost.now number) }
{
    match stage.world().sent().get(number) {
        Some(datagram) => comes_again(stage.moment, lost, number, datagram),
        None => Ok(None),
    }
}

fn comes_again(
    moment: Moment,
    lost: &[usize],
    number: usize,
    datagram: &SentDatagram,
) -> Result<Option<Mark>, AllocError>
    requires { number + 1 < 2 ^ 64 }
    ensures { IfOk result (λ mark. mark ≡ spec.comes_again moment lost.now number datagram.now) }
{
    if datagram.waits || has(lost, number) {
        return Ok(None);
    }
    arrow(
        Way::Again(number + 1),
        moment,
        datagram.from,
        datagram.to,
        &datagram.bytes,
    )
}

fn arrow(
    way: Way,
    moment: Moment,
    from: Peer,
    to: Peer,
    bytes: &Bytes,
) -> Result<Option<Mark>, AllocError>
    ensures { IfOk result (λ mark. mark ≡ spec.comes way moment from to bytes.now) }
{
    let bytes = bytes.clone()?;
    Ok(Some(Mark::Arrow(Arrow {
        way,
        moment,
        from,
        to,
        bytes,
        inner: None,
        arrives: true,
    })))
}

// ---- what is dropped

/// Whether the number is one of these.
pub(crate) fn has(numbers: &[usize], number: usize) -> bool
    ensures { result ≡ spec.has numbers.now number }
{
    numbers.iter().any(|other| *other == number)
}

/// Those of the datagrams that were dropped and didn't come since, after a line.
pub(crate) fn lose(
    alloc: Global,
    lost: &mut Vec<usize>,
    sent: &[SentDatagram],
    line: &Line,
) -> Result<(), AllocError>
    ensures { OnOk result (lost.new.items ≡ spec.lost_after sent.now line.now lost.old.items) }
{
    match line {
        Line::Drop { datagram } => add_lost(lost, sent, datagram_number(sent, *datagram)),
        Line::Deliver { datagram } => find(alloc, lost, datagram_number(sent, *datagram)),
        _ => Ok(()),
    }
}

// The datagram of this number is dropped, if it waits.
fn add_lost(lost: &mut Vec<usize>, sent: &[SentDatagram], number: usize) -> Result<(), AllocError>
    ensures { OnOk result (lost.new.items ≡ spec.with_lost sent.now number lost.old.items) }
{
    if waits(sent, number) {
        return Ok(lost.push(number)?);
    }
    Ok(())
}

fn waits(sent: &[SentDatagram], number: usize) -> bool
    ensures { result ≡ spec.waits sent.now number }
{
    match sent.get(number) {
        Some(datagram) => datagram.waits,
        None => false,
    }
}

// The datagram of this number came.
fn find(alloc: Global, lost: &mut Vec<usize>, number: usize) -> Result<(), AllocError>
    ensures { OnOk result (lost.new.items ≡ spec.without number lost.old.items) }
{
    *lost = without(alloc, lost, number)?;
    Ok(())
}

fn without(alloc: Global, numbers: &[usize], number: usize) -> Result<Vec<usize>, AllocError>
    ensures { IfOk result (λ others. others.items ≡ spec.without number numbers.now) }
{
    let mut others = Vec::new(alloc);
    for other in numbers {
        add_other(&mut others, *other, number)?;
    }
    Ok(others)
}

fn add_other(others: &mut Vec<usize>, other: usize, number: usize) -> Result<(), AllocError>
    ensures { OnOk result (others.new.items ≡ others.old.items ++ spec.without number (other ∷ [])) }
{
    if other == number {
        return Ok(());
    }
    Ok(others.push(other)?)
}
