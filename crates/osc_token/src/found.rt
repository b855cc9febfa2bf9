//! What claims and input material have under the labels that are looked for, found in one pass over each.

ghost use Rattle.std.specs.Prelude.{◌≡◌};
ghost use Rattle.osc_cbor.specs.{value_under, pairs_of};

use crate::labels::{
    ALGORITHM, AUDIENCE, CONFIRMATION, EXPIRES, HKDF, ID, ID_CONTEXT, NOT_BEFORE, SALT, SCOPE,
    SECRET, VERSION,
};
use osc_cbor::{ItemRef, PairRefs, first_value};
use std::marker::Model;

/// The values of claims.
#[derive(Drop)]
pub(crate) struct ClaimValues<'a> {
    pub(crate) audience: Option<ItemRef<'a>>,
    pub(crate) expires: Option<ItemRef<'a>>,
    pub(crate) not_before: Option<ItemRef<'a>>,
    pub(crate) confirmation: Option<ItemRef<'a>>,
    pub(crate) scope: Option<ItemRef<'a>>,
}

/// The values of claims, in one pass over the pairs.
fn claim_values<'a>(pairs: PairRefs<'a>) -> ClaimValues<'a>
    ensures audience { result.audience ≡ value_under 3 (pairs_of pairs.entry) }
    ensures expires { result.expires ≡ value_under 4 (pairs_of pairs.entry) }
    ensures not_before { result.not_before ≡ value_under 5 (pairs_of pairs.entry) }
    ensures confirmation { result.confirmation ≡ value_under 8 (pairs_of pairs.entry) }
    ensures scope { result.scope ≡ value_under 9 (pairs_of pairs.entry) }
{
    let mut audience = None;
    let mut expires = None;
    let mut not_before = None;
    let mut confirmation = None;
    let mut scope = None;
    let mut pairs = pairs;
    while let Some((label, value)) = pairs.next_labelled(AUDIENCE, SCOPE) {
        audience = first_value(audience, AUDIENCE, label, &value);
        expires = first_value(expires, EXPIRES, label, &value);
        not_before = first_value(not_before, NOT_BEFORE, label, &value);
        confirmation = first_value(confirmation, CONFIRMATION, label, &value);
        scope = first_value(scope, SCOPE, label, &value);
    }
    ClaimValues {
        audience,
        expires,
        not_before,
        confirmation,
        scope,
    }
}

/// An item, lent, with what it has under the labels of claims (RFC 8392 section 3, RFC 8747 section 3.1, RFC 9200 section 5.10.2) if it is a map. Contracts
/// see the item.
#[derive(Drop)]
pub(crate) struct ClaimsRef<'a> {
    item: ItemRef<'a>,
    pub(crate) values: ClaimValues<'a>,
}

impl<'a> Model for ClaimsRef<'a> {
    ghost use Rattle.std.specs.Prelude.{◌≡◌};
    ghost use Rattle.osc_cbor.specs.Inner.Code.{coded_item};
    ghost use Rattle.osc_cbor.specs.{DataItem, value};

    ghost Value = { DataItem };

    ghost coded = { coded_item };

    ghost view = { λ claims. claims.item };

    ghost invariant = { λ claims. (claims.values.audience ≡ value 3 claims.item) × (claims.values.expires ≡ value 4 claims.item) × (claims.values.not_before ≡ value 5 claims.item)
        × (claims.values.confirmation ≡ value 8 claims.item) × (claims.values.scope ≡ value 9 claims.item) };
}

impl<'a> ClaimsRef<'a> {
    /// What this item has.
    pub(crate) fn new(item: ItemRef<'a>) -> ClaimsRef<'a>
        ensures { result ≡ item.entry }
    {
        let values = match item.as_map() {
            Some(pairs) => claim_values(pairs),
            None => ClaimValues {
                audience: None,
                expires: None,
                not_before: None,
                confirmation: None,
                scope: None,
            },
        };
        ClaimsRef { item, values }
    }

    /// The item.
    pub(crate) fn item(&self) -> &ItemRef<'a>
        ensures { result.now ≡ self.now }
    {
        &self.item
    }
}

/// The values of input material's fields.
#[derive(Drop)]
pub(crate) struct FieldValues<'a> {
    pub(crate) id: Option<ItemRef<'a>>,
    pub(crate) version: Option<ItemRef<'a>>,
    pub(crate) secret: Option<ItemRef<'a>>,
    pub(crate) hkdf: Option<ItemRef<'a>>,
    pub(crate) alg: Option<ItemRef<'a>>,
    pub(crate) salt: Option<ItemRef<'a>>,
    pub(crate) id_context: Option<ItemRef<'a>>,
}

/// The values of input material's fields, in one pass over the pairs.
fn field_values<'a>(pairs: PairRefs<'a>) -> FieldValues<'a>
    ensures id { result.id ≡ value_under 0 (pairs_of pairs.entry) }
    ensures version { result.version ≡ value_under 1 (pairs_of pairs.entry) }
    ensures secret { result.secret ≡ value_under 2 (pairs_of pairs.entry) }
    ensures hkdf { result.hkdf ≡ value_under 3 (pairs_of pairs.entry) }
    ensures alg { result.alg ≡ value_under 4 (pairs_of pairs.entry) }
    ensures salt { result.salt ≡ value_under 5 (pairs_of pairs.entry) }
    ensures id_context { result.id_context ≡ value_under 6 (pairs_of pairs.entry) }
{
    let mut id = None;
    let mut version = None;
    let mut secret = None;
    let mut hkdf = None;
    let mut alg = None;
    let mut salt = None;
    let mut id_context = None;
    let mut pairs = pairs;
    while let Some((label, value)) = pairs.next_labelled(ID, ID_CONTEXT) {
        id = first_value(id, ID, label, &value);
        version = first_value(version, VERSION, label, &value);
        secret = first_value(secret, SECRET, label, &value);
        hkdf = first_value(hkdf, HKDF, label, &value);
        alg = first_value(alg, ALGORITHM, label, &value);
        salt = first_value(salt, SALT, label, &value);
        id_context = first_value(id_context, ID_CONTEXT, label, &value);
    }
    FieldValues {
        id,
        version,
        secret,
        hkdf,
        alg,
        salt,
        id_context,
    }
}

/// An item, lent, with what it has under the labels of input material (RFC 9203 section 3.2.1) if it is a map. Contracts see the item.
#[derive(Drop)]
pub(crate) struct FieldsRef<'a> {
    item: ItemRef<'a>,
    pub(crate) values: FieldValues<'a>,
}

impl<'a> Model for FieldsRef<'a> {
    ghost use Rattle.std.specs.Prelude.{◌≡◌};
    ghost use Rattle.osc_cbor.specs.Inner.Code.{coded_item};
    ghost use Rattle.osc_cbor.specs.{DataItem, value};

    ghost Value = { DataItem };

    ghost coded = { coded_item };

    ghost view = { λ fields. fields.item };

    ghost invariant = { λ fields. (fields.values.id ≡ value 0 fields.item) × (fields.values.version ≡ value 1 fields.item) × (fields.values.secret ≡ value 2 fields.item)
        × (fields.values.hkdf ≡ value 3 fields.item) × (fields.values.alg ≡ value 4 fields.item) × (fields.values.salt ≡ value 5 fields.item)
        × (fields.values.id_context ≡ value 6 fields.item) };
}

impl<'a> FieldsRef<'a> {
    /// What this item has.
    pub(crate) fn new(item: ItemRef<'a>) -> FieldsRef<'a>
        ensures { result ≡ item.entry }
    {
        let values = match item.as_map() {
            Some(pairs) => field_values(pairs),
            None => FieldValues {
                id: None,
                version: None,
                secret: None,
                hkdf: None,
                alg: None,
                salt: None,
                id_context: None,
            },
        };
        FieldsRef { item, values }
    }
}
