//! The options of a message (RFC 7252 section 5.10), and OSCORE's classes of them (RFC 8613 section 4.1).

use crate::line::Line;
use crate::words::Word;
use osc_coap::MessageRef;
use osc_options::{
    class_of, has_option, is_critical, is_unsafe, merge, rule_of, split, unrecognised_critical,
};

/// `rule NUMBER`: the option's class; of one in the table also whether it is critical, unsafe and repeatable, and its least and greatest
/// length.
pub fn rule(words: &[Word<'_>], line: &mut Line) -> Option<()> {
    let [number] = words else {
        return None;
    };
    let number = number.short()?;
    line.value(&class_of(number));
    if let Some(rule) = rule_of(number) {
        line.test(is_critical(number));
        line.test(is_unsafe(number));
        line.test(rule.repeats);
        line.number(rule.shortest.into());
        line.number(rule.longest.into());
    }
    Some(())
}

/// `unrecognised MESSAGE`: the first critical option that isn't recognised.
pub fn unrecognised(words: &[Word<'_>], line: &mut Line) -> Option<()> {
    let [message] = words else {
        return None;
    };
    let message = MessageRef::parse(message.bytes()?).ok()?;
    match unrecognised_critical(&message) {
        Some(number) => line.number(number.into()),
        None => line.text("none"),
    }
    Some(())
}

/// `has_option MESSAGE NUMBER`
pub fn has(words: &[Word<'_>], line: &mut Line) -> Option<()> {
    let [message, number] = words else {
        return None;
    };
    let (message, number) = (MessageRef::parse(message.bytes()?).ok()?, number.short()?);
    line.test(has_option(&message, number));
    Some(())
}

/// `split MESSAGE`: the options that stay outside, and those that are encrypted.
pub fn parts(words: &[Word<'_>], line: &mut Line) -> Option<()> {
    let [message] = words else {
        return None;
    };
    let message = MessageRef::parse(message.bytes()?).ok()?;
    let parts = split(&message);
    line.text("outside");
    for (number, value) in parts.outer {
        line.number(number.into());
        line.bytes(value);
    }
    line.text("inside");
    for (number, value) in parts.inner {
        line.number(number.into());
        line.bytes(value);
    }
    Some(())
}

/// `merge MESSAGE MESSAGE`: the options of the one that stay outside and those of the other that are encrypted, in one list.
pub fn merged(words: &[Word<'_>], line: &mut Line) -> Option<()> {
    let [outside, inside] = words else {
        return None;
    };
    let outside = MessageRef::parse(outside.bytes()?).ok()?;
    let inside = MessageRef::parse(inside.bytes()?).ok()?;
    for (number, value) in merge(split(&outside).outer, split(&inside).inner) {
        line.number(number.into());
        line.bytes(value);
    }
    Some(())
}
