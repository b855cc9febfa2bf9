//! A payload that is written where it is sent from.

ghost use Rattle.std.specs.Prelude.{◌≡◌, ◌-◌, ◌≤◌, ◌++◌, ℕ, List, length, take};
ghost use Rattle.arrayvec.specs.ArrayVec.{array_vec_len};

use arrayvec::ArrayVec;
use osc_model::limits::DATAGRAM_LIMIT;

/// What writes a payload into the datagram itself, so that nothing is copied after the message. How many bytes it
/// has is known before.
pub trait PayloadWriter {
    // Whether it can write this number of bytes.
    ghost can_write: { Self → ℕ → Type 0 };

    // Whether these bytes may be what it writes.
    ghost is_written: { Self → List ℕ → Type 0 };

    /// Writes all of the payload, over bytes that are zero.
    fn write(&self, payload: &mut [u8])
        requires { can_write self.now (length payload.old) }
        ensures { is_written self.now payload.new };
}

/// Has the last bytes written, as many as these.
pub(crate) fn write_last<W: PayloadWriter>(
    out: &mut ArrayVec<u8, DATAGRAM_LIMIT>,
    size: usize,
    writer: &W,
)
    requires there { size ≤ array_vec_len out.old }
    requires can { W.can_write writer.now size }
    ensures { (written : List ℕ) × (length written ≡ size) × W.is_written writer.now written
        × (out.new.items ≡ take (array_vec_len out.old - size) out.old.items ++ written) }
{
    let start = out.len() - size;
    writer.write(&mut out.as_mut_slice()[start..]);
}
