//! The replay window (RFC 8613 section 7.4).

use crate::line::Line;
use crate::words::Word;
use osc_window::Window;

/// `window NUMBER ..`: whether each is fresh where the fresh ones before it were accepted.
pub fn accepted(words: &[Word<'_>], line: &mut Line) -> Option<()> {
    let mut window = Window::new();
    for word in words {
        let number = word.number()?;
        let is_fresh = window.is_fresh(number);
        if is_fresh {
            window.accept(number);
        }
        line.test(is_fresh);
    }
    Some(())
}
