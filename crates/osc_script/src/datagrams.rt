//! Lines of datagrams.

ghost use Rattle.std.specs.Prelude.{◌≡◌, IfOk, map, option_map};
ghost use Rattle.osc_script.specs.Inner.Reading.{with_more, with_one, with_two, with_three, alter_in, change_in, changes_in, deliver_in, drop_in, graft_in, inject_in, Gives};

use crate::line::{Change, Changes, Line};
use crate::words::{kept_bytes, node, number, pairs};
use std::alloc::{AllocError, Global};

// K
#[tactic(auto, unfolding(crate::specs::Inner::Reading::deliver_in))]
pub(crate) fn deliver(args: &[&str]) -> Option<Line>
    ensures { Gives (with_one deliver_in (map (λ arg. arg.now) args.now)) result }
{
    let [datagram] = args else {
        return None;
    };
    let datagram = number(datagram.as_bytes())?;
    Some(Line::Deliver { datagram })
}

// K
#[tactic(auto, unfolding(crate::specs::Inner::Reading::drop_in))]
pub(crate) fn drop_line(args: &[&str]) -> Option<Line>
    ensures { Gives (with_one drop_in (map (λ arg. arg.now) args.now)) result }
{
    let [datagram] = args else {
        return None;
    };
    let datagram = number(datagram.as_bytes())?;
    Some(Line::Drop { datagram })
}

// K OFFSET HEX ..
#[tactic(auto, unfolding(crate::specs::Inner::Reading::alter_in))]
pub(crate) fn alter(alloc: Global, args: &[&str]) -> Result<Option<Line>, AllocError>
    ensures { IfOk result (λ found. Gives (with_more alter_in (map (λ arg. arg.now) args.now)) found) }
{
    let [datagram, words @ ..] = args else {
        return Ok(None);
    };
    let Some(datagram) = number(datagram.as_bytes()) else {
        return Ok(None);
    };
    let Some(changes) = changes(alloc, words)? else {
        return Ok(None);
    };
    if changes.is_empty() {
        return Ok(None);
    }
    Ok(Some(Line::Alter {
        datagram,
        changes: Changes::from_vec(changes),
    }))
}

// The changes of pairs of words.
fn changes(alloc: Global, words: &[&str]) -> Result<Option<Vec<Change>>, AllocError>
    ensures { IfOk result (λ found. option_map (λ changes. changes.items) found ≡ changes_in (map (λ word. word.now) words.now)) }
{
    let mut changes = Vec::new(alloc);
    let mut rest = words;
    while let [offset, hex, behind @ ..] = rest {
        let Some(change) = change(alloc, offset, hex)? else {
            return Ok(None);
        };
        changes.push(change)?;
        rest = behind;
    }
    if !rest.is_empty() {
        return Ok(None);
    }
    Ok(Some(changes))
}

// OFFSET HEX
#[tactic(auto, unfolding(crate::specs::Inner::Reading::change_in))]
fn change(alloc: Global, offset: &str, hex: &str) -> Result<Option<Change>, AllocError>
    ensures { IfOk result (λ found. found ≡ change_in offset.now hex.now) }
{
    let Some(offset) = number(offset.as_bytes()) else {
        return Ok(None);
    };
    let Some(bytes) = pairs(alloc, hex.as_bytes())? else {
        return Ok(None);
    };
    if bytes.len() != 1 {
        return Ok(None);
    }
    Ok(Some(Change {
        offset,
        mask: bytes[0],
    }))
}

// J K
#[tactic(auto, unfolding(crate::specs::Inner::Reading::graft_in))]
pub(crate) fn graft(args: &[&str]) -> Option<Line>
    ensures { Gives (with_two graft_in (map (λ arg. arg.now) args.now)) result }
{
    let [first, second] = args else {
        return None;
    };
    let header = number(first.as_bytes())?;
    let body = number(second.as_bytes())?;
    Some(Line::Graft { header, body })
}

// FROM TO BYTES
pub(crate) fn inject(alloc: Global, args: &[&str]) -> Result<Option<Line>, AllocError>
    ensures { IfOk result (λ found. Gives (with_three inject_in (map (λ arg. arg.now) args.now)) found) }
{
    match args {
        [from, to, payload] => inject_of(alloc, from, to, payload),
        _ => Ok(None),
    }
}

// The same of the words of each.
#[tactic(auto, unfolding(crate::specs::Inner::Reading::inject_in))]
fn inject_of(alloc: Global, from: &str, to: &str, payload: &str) -> Result<Option<Line>, AllocError>
    ensures { IfOk result (λ found. Gives (inject_in from.now to.now payload.now) found) }
{
    let Some(from) = node(from) else {
        return Ok(None);
    };
    let Some(to) = node(to) else {
        return Ok(None);
    };
    let Some(bytes) = kept_bytes(alloc, payload.as_bytes())? else {
        return Ok(None);
    };
    Ok(Some(Line::Inject { from, to, bytes }))
}
