//! Where in a desk's table each recipient ID is, so that a context is found without going through them all.

ghost use Rattle.std.specs.Prelude.{◌≡◌, ◌≤◌, ◌<◌, ℕ, [], ◌∷◌, if◌then◌else◌, false, bytes_eq, length, position, slice_index_or};
ghost use Rattle.std.specs.Option.{option_map_or};
ghost use Rattle.osc_authz.specs.Inner.Places.{IsIndex, place_at, nowhere};
ghost use Rattle.osc_authz.specs.Table.{IsTable, has_id, holds_id};

use crate::context::ServerContext;
use crate::token_entry::TokenEntry;

/// For each byte, which stands for the recipient ID that is this one byte, the place of the token id that has the context, or
/// [`NOWHERE`].
pub(crate) type Places = [u8; 256];

/// The place of an ID that no context has.
pub(crate) const NOWHERE: u8 = 255;

/// Where the recipient IDs of this table are; takes time linear in its token ids.
pub(crate) fn places_of(table: &[TokenEntry]) -> Places
    requires { length table.now ≤ 64 }
    ensures { IsIndex result table.now }
{
    let mut places = [NOWHERE; 256];
    let mut left = table.len();
    // From the last one on, so that of two with one ID the first one counts.
    while left > 0 {
        left -= 1;
        note_entry(&mut places, &table[left], left as u8);
    }
    places
}

/// The place of the token id that has the context with this recipient ID.
pub(crate) fn place_of_id(table: &[TokenEntry], places: &Places, id: &[u8]) -> Option<usize>
    requires table { IsTable table.now }
    requires index { IsIndex places.now table.now }
    ensures { result ≡ position (holds_id id.now) table.now }
{
    let [byte] = id else {
        return None;
    };
    let place = places[usize::from(*byte)];
    (place != NOWHERE).then_some(usize::from(place))
}

/// Notes the place of a token id for the recipient IDs of its contexts.
fn note_entry(places: &mut Places, entry: &TokenEntry, place: u8)
    ensures { (byte : ℕ) → byte < 256 → place_at places.new byte ≡ (if holds_id (byte ∷ []) entry.now then place else place_at places.old byte) }
{
    note_context(places, &entry.confirmed, place);
    note_context(places, &entry.pending, place);
}

/// The same of one context, where it is there.
fn note_context(places: &mut Places, context: &Option<ServerContext>, place: u8)
    ensures { (byte : ℕ) → byte < 256 → place_at places.new byte ≡ (if option_map_or (has_id (byte ∷ [])) context.now false then place else place_at places.old byte) }
{
    if let Some(context) = context {
        note(places, context.name.client_id.as_slice(), place);
    }
}

/// The same of one recipient ID, where that has one byte.
fn note(places: &mut Places, id: &[u8], place: u8)
    ensures { (byte : ℕ) → byte < 256 → place_at places.new byte ≡ (if bytes_eq (byte ∷ []) id.now then place else place_at places.old byte) }
{
    if let [only] = id {
        places[usize::from(*only)] = place;
    }
}
