//! Which path stands for a token that is revoked.
ghost use Rattle.std.specs.Prelude.{◌≡◌, ◌++◌, IfOk, OnOk, length, map};
ghost use Rattle.osc_model.specs.Path.{segments_of};
ghost use Rattle.osc_model.specs.Revocation.{pieces, revoked_path};

use crate::path::Path;
use std::alloc::{AllocError, Global};
use std::cmp::min;

// How many digits of an id make a segment.
const PIECE: usize = 32;

/// The path at which a resource says that the token of this id is revoked, at a server with the revocation path `root`: the segments of
/// `root`, and after them the hexadecimal text of the id, in lower case, in segments of 32 digits. None where they are too many for a path.
pub fn revoked_path(alloc: Global, root: &Path, id: &[u8]) -> Result<Option<Path>, AllocError>
    ensures { IfOk result (λ path. path ≡ revoked_path root.now id.now) }
{
    let digits = hex::encode(alloc, id)?;
    let mut segments = segments_of(alloc, root)?;
    add_pieces(&mut segments, digits.as_bytes())?;
    Path::from_segments(alloc, &segments)
}

// The segments of a path.
fn segments_of(alloc: Global, path: &Path) -> Result<Vec<&[u8]>, AllocError>
    ensures { IfOk result (λ segments. map (λ segment. segment.now) segments.items ≡ segments_of path.now) }
{
    path.text()[1..].split(|b| *b == b'/').collect(alloc)
}

// Adds these digits in pieces.
fn add_pieces<'a>(segments: &mut Vec<&'a [u8]>, digits: &'a [u8]) -> Result<(), AllocError>
    ensures { OnOk result (map (λ segment. segment.now) segments.new.items
        ≡ map (λ segment. segment.now) segments.old.items ++ pieces (length digits.now) digits.now) }
{
    let mut rest = digits;
    'pieces: while !rest.is_empty() {
        let (piece, more) = rest.split_at(min(PIECE, rest.len()));
        segments.push(piece)?;
        rest = more;
    }
    Ok(())
}
