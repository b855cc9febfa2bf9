//! Lines of time and of nodes.

ghost use Rattle.std.specs.Prelude.{◌≡◌, IfOk, map};
ghost use Rattle.osc_script.specs.declared.line.Line.TheVariants.{Quiet};
ghost use Rattle.osc_script.specs.Inner.Reading.{with_none, with_one, at_in, draw_in, moment_in, restart_in, tick_in, Gives};

use crate::line::Line;
use crate::words::{nonce, number, worker};
use osc_model::Moment;
use std::alloc::{AllocError, Global};

// The moment of this number of milliseconds.
fn moment_of(ms: u64) -> Option<Moment>
    ensures { result ≡ moment_in ms }
{
    Moment::new(ms)
}

// MS
#[tactic(auto, unfolding(crate::specs::Inner::Reading::at_in))]
pub(crate) fn at(args: &[&str]) -> Option<Line>
    ensures { Gives (with_one at_in (map (λ arg. arg.now) args.now)) result }
{
    let [moment] = args else {
        return None;
    };
    let moment = moment_of(number(moment.as_bytes())?)?;
    Some(Line::At { moment })
}

// HEX16
#[tactic(auto, unfolding(crate::specs::Inner::Reading::draw_in))]
pub(crate) fn draw(alloc: Global, args: &[&str]) -> Result<Option<Line>, AllocError>
    ensures { IfOk result (λ found. Gives (with_one draw_in (map (λ arg. arg.now) args.now)) found) }
{
    let [digits] = args else {
        return Ok(None);
    };
    let Some(nonce) = nonce(alloc, digits.as_bytes())? else {
        return Ok(None);
    };
    Ok(Some(Line::Draw { nonce }))
}

// NODE
#[tactic(auto, unfolding(crate::specs::Inner::Reading::tick_in))]
pub(crate) fn tick(args: &[&str]) -> Option<Line>
    ensures { Gives (with_one tick_in (map (λ arg. arg.now) args.now)) result }
{
    let [node] = args else {
        return None;
    };
    let node = worker(node)?;
    Some(Line::Tick { node })
}

// NODE
#[tactic(auto, unfolding(crate::specs::Inner::Reading::restart_in))]
pub(crate) fn restart(args: &[&str]) -> Option<Line>
    ensures { Gives (with_one restart_in (map (λ arg. arg.now) args.now)) result }
{
    let [node] = args else {
        return None;
    };
    let node = worker(node)?;
    Some(Line::Restart { node })
}

// no words
pub(crate) fn quiet(args: &[&str]) -> Option<Line>
    ensures { Gives (with_none Quiet (map (λ arg. arg.now) args.now)) result }
{
    match args {
        [] => Some(Line::Quiet),
        _ => None,
    }
}
