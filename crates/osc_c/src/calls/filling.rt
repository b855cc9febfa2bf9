//! Bytes that are written where a caller has room.
ghost use Rattle.std.specs.Prelude.{◌≡◌, ◌↔◌, ◌≤◌, ◌++◌, ◌+◌, IsTrue, length};
ghost use Rattle.osc_c.specs.Filling.{written};

/// Writes these bytes at the front, where there is room for them. Whether there is.
pub fn fill(room: &mut [u8], bytes: &[u8]) -> bool
    ensures fits { IsTrue result ↔ (length bytes.now ≤ length room.old) }
    ensures written { room.new ≡ written bytes.now room.old }
{
    if room.len() < bytes.len() {
        return false;
    }
    let (front, _) = room.split_at_mut(bytes.len());
    front.copy_from_slice(bytes);
    true
}

/// The same of two, one after the other.
pub fn fill_two(room: &mut [u8], first: &[u8], second: &[u8]) -> bool
    ensures fits { IsTrue result ↔ (length (first.now ++ second.now) ≤ length room.old) }
    ensures written { room.new ≡ written (first.now ++ second.now) room.old }
{
    if !have_room(room.len(), first.len(), second.len(), 0) {
        return false;
    }
    let (front, rest) = room.split_at_mut(first.len());
    front.copy_from_slice(first);
    let (front, _) = rest.split_at_mut(second.len());
    front.copy_from_slice(second);
    true
}

/// The same of three, one after the other.
pub fn fill_three(room: &mut [u8], first: &[u8], second: &[u8], third: &[u8]) -> bool
    ensures fits { IsTrue result ↔ (length (first.now ++ second.now ++ third.now) ≤ length room.old) }
    ensures written { room.new ≡ written (first.now ++ second.now ++ third.now) room.old }
{
    if !have_room(room.len(), first.len(), second.len(), third.len()) {
        return false;
    }
    let (front, rest) = room.split_at_mut(first.len());
    front.copy_from_slice(first);
    let (front, rest) = rest.split_at_mut(second.len());
    front.copy_from_slice(second);
    let (front, _) = rest.split_at_mut(third.len());
    front.copy_from_slice(third);
    true
}

/// Whether there is room for `first`, `second` and `third` bytes together; their sum may be above what a number holds.
fn have_room(room: usize, first: usize, second: usize, third: usize) -> bool
    ensures { IsTrue result ↔ (first + second + third ≤ room) }
{
    first <= room && second <= room - first && third <= room - first - second
}
