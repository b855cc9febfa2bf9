//! What is noted of a seal or an opening.

use crate::line::Line;
use osc_model::Note;

/// Writes the side, the number, the nonce, the associated data and the plaintext.
pub fn write_note(note: &Note, line: &mut Line) {
    line.value(&note.side);
    line.number(note.number);
    line.bytes(&note.nonce);
    line.bytes(note.aad.as_slice());
    line.bytes(note.plaintext.as_slice());
}
