//! Writing COSE_Encrypt0 objects.

ghost use Rattle.std.specs.Prelude.{◌≡◌, ◌++◌, OnOk, OnErr, IfOk};
ghost use Rattle.osc_cbor.specs.{no_pairs, spelling, view, pairs_view};
ghost use Rattle.osc_cose.specs.Encrypt0.{parameter, object_item};

use crate::encrypt0::Encrypt0;
use crate::parsing::{IV, KID};
use osc_cbor::{Item, write};
use osc_model::Bytes;
use std::alloc::{AllocError, Global};

/// Appends an object, without the tag 16. Without memory all stays as it was.
pub fn write0(alloc: Global, object: Encrypt0, out: &mut Vec<u8>) -> Result<(), AllocError>
    ensures ok { OnOk result (out.new.items ≡ out.old.items ++ spelling (object_item object)) }
    ensures err { OnErr result (out.new.items ≡ out.old.items) }
{
    let item = item_of(alloc, object)?;
    write(&item, out)
}

/// The item of an object.
fn item_of(alloc: Global, object: Encrypt0) -> Result<Item, AllocError>
    ensures { IfOk result (λ item. view item ≡ object_item object) }
{
    let parameters = parameters(alloc, object.kid, object.iv)?;
    let parts = vec![in alloc;
        Item::Bytes(object.protected.into_vec()),
        Item::Map(parameters),
        Item::Bytes(object.ciphertext.into_vec()),
    ]?;
    Ok(Item::Array(parts))
}

/// The parameters of an unprotected header, those that are there.
fn parameters(
    alloc: Global,
    kid: Option<Bytes>,
    iv: Option<Bytes>,
) -> Result<Vec<(Item, Item)>, AllocError>
    ensures { IfOk result (λ pairs. pairs_view pairs.items ≡ parameter 4 kid (parameter 5 iv no_pairs)) }
{
    let mut pairs = Vec::new(alloc);
    if let Some(kid) = kid {
        pairs.push((Item::Unsigned(KID), Item::Bytes(kid.into_vec())))?;
    }
    if let Some(iv) = iv {
        pairs.push((Item::Unsigned(IV), Item::Bytes(iv.into_vec())))?;
    }
    Ok(pairs)
}
