//! The parts of an object's item.

ghost use Rattle.std.specs.Prelude.{◌≡◌, option_map};
ghost use Rattle.osc_cbor.specs.{map, items_of, pairs_of};
ghost use Rattle.osc_cose.specs.Encrypt0.{untagged as without_tag};
ghost use Rattle.osc_cose.specs.Inner.Parts.{three_of, typed as typed_parts, parts_of};

use osc_cbor::{ItemRef, ItemRefs, PairRefs};

/// The tag of COSE_Encrypt0 (RFC 9052 section 2).
const TAG: u64 = 16;

/// The parts of an object.
#[derive(Drop)]
pub(crate) struct ObjectParts<'a> {
    /// The protected header's bytes.
    pub(crate) protected: &'a [u8],
    /// The unprotected header.
    pub(crate) unprotected: PairRefs<'a>,
    /// The ciphertext.
    pub(crate) ciphertext: &'a [u8],
}

/// The parts of an object, where the item has them.
pub(crate) fn parts<'a>(item: &ItemRef<'a>) -> Option<ObjectParts<'a>>
    ensures { option_map (λ found. (found.protected.now, (map (pairs_of found.unprotected), found.ciphertext.now))) result ≡ parts_of (without_tag item.now) }
{
    let (protected, unprotected, ciphertext) = three(untagged(item).as_array()?)?;
    typed(&protected, &unprotected, &ciphertext)
}

/// The item without its tag.
fn untagged<'a>(item: &ItemRef<'a>) -> ItemRef<'a>
    ensures { result ≡ without_tag item.now }
{
    match item.as_tag() {
        Some((number, inner)) if number == TAG => inner,
        _ => item.reborrow(),
    }
}

/// The items, where they are three.
fn three<'a>(items: ItemRefs<'a>) -> Option<(ItemRef<'a>, ItemRef<'a>, ItemRef<'a>)>
    ensures { option_map (λ found. (found.0, (found.1, found.2))) result ≡ three_of (items_of items.entry) }
{
    let mut items = items;
    let first = items.next()?;
    let second = items.next()?;
    let third = items.next()?;
    match items.next() {
        None => Some((first, second, third)),
        Some(_) => None,
    }
}

/// The parts, where they are a byte string, a map and a byte string.
fn typed<'a>(
    protected: &ItemRef<'a>,
    unprotected: &ItemRef<'a>,
    ciphertext: &ItemRef<'a>,
) -> Option<ObjectParts<'a>>
    ensures { option_map (λ found. (found.protected.now, (map (pairs_of found.unprotected), found.ciphertext.now))) result ≡ typed_parts (protected.now, (unprotected.now, ciphertext.now)) }
{
    Some(ObjectParts {
        protected: protected.as_bytes()?,
        unprotected: unprotected.as_map()?,
        ciphertext: ciphertext.as_bytes()?,
    })
}
