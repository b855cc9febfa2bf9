//! The value of OSCORE's option (RFC 8613 section 6.1).

use crate::line::Line;
use crate::words::Word;
use osc_protect::OscoreOption;

/// `option_value VALUE`: Partial IV, kid context and kid.
pub fn said(words: &[Word<'_>], line: &mut Line) -> Option<()> {
    let [value] = words else {
        return None;
    };
    match OscoreOption::parse(value.bytes()?) {
        Some(option) => {
            line.some_number(option.partial_iv());
            line.some_bytes(option.kid_context());
            line.some_bytes(option.kid());
        }
        None => line.text("malformed"),
    }
    Some(())
}
