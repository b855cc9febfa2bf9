//! Times that the values of options spell.
ghost use Rattle.std.specs.Prelude.{◌≡◌};
ghost use Rattle.osc_script.specs.{Reads};
ghost use Rattle.osc_words.specs.Times as spec;

use osc_script::values;

/// How long a client waits: it begins no further turn once either is used up. One that isn't given is `u64::MAX`.
#[derive(Clone, Copy, Debug, PartialEq, Eq)]
pub struct Patience {
    /// The most turns that it takes.
    pub turns: u64,
    /// How many milliseconds it takes them for.
    pub millis: u64,
}

impl Patience {
    /// This number of turns, however long they take.
    pub(crate) fn of_turns(turns: u64) -> Patience
        ensures { result ≡ record { turns = turns; millis = u64.MAX } }
    {
        Patience {
            turns,
            millis: u64::MAX,
        }
    }

    /// Turns for this number of milliseconds, however many.
    pub(crate) fn of_millis(millis: u64) -> Patience
        ensures { result ≡ record { turns = u64.MAX; millis = millis } }
    {
        Patience {
            turns: u64::MAX,
            millis,
        }
    }
}

/// A number of seconds: decimal digits and the letter of a unit, `s`, `m`, `h` or `d`.
pub(crate) fn time(text: &str) -> Option<u64>
    ensures { Reads (spec.SpellsTime text.now) result }
{
    let (letter, digits) = text.as_bytes().split_last()?;
    let unit = seconds_in(*letter)?;
    values::decimal(digits)?.checked_mul(unit)
}

/// A number of milliseconds: those of a number of seconds.
pub(crate) fn timeout(text: &str) -> Option<u64>
    ensures { Reads (spec.SpellsTimeout text.now) result }
{
    Some(values::number(text)?.saturating_mul(1000))
}

// How many seconds the unit of this letter is.
fn seconds_in(letter: u8) -> Option<u64>
    ensures { result ≡ spec.seconds_in letter }
{
    match letter {
        b's' => Some(1),
        b'm' => Some(60),
        b'h' => Some(3600),
        b'd' => Some(86400),
        _ => None,
    }
}
