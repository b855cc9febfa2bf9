//! What was minted: grants, and the claims that were sealed into their tokens.

use osc_model::Bytes;
use osc_scope::Scope;
use osc_token::InputMaterial;
use std::fmt;
use std::marker::Model;

/// What the holder of a token may do, and until when (RFC 9200 section 5.8, RFC 8392 section 3.1). Contracts see a record in
/// which the parts of the input material are beside the others.
pub struct Grant {
    /// What the holder's contexts are derived from (RFC 9203 section 3.2.1), with the token's id.
    pub material: InputMaterial,
    /// What the holder may do.
    pub scope: Scope,
    /// From when on it counts, in whole seconds; from ever where there is none.
    pub not_before: Option<u64>,
    /// From when on it counts no more, in whole seconds; never where there is none.
    pub expires: Option<u64>,
    /// The number of the client that holds it.
    pub holder: usize,
}

impl Drop for Grant {
    fn drop(self) {
        let Grant {
            material: _,
            scope: _,
            not_before: _,
            expires: _,
            holder: _,
        } = self;
    }
}

impl Model for Grant {
    ghost use Rattle.std.specs.Coded.{codes};
    ghost use Rattle.osc_model.specs.Grant.{Grant as Granted};
    ghost use Rattle.osc_model.specs.{coded_scope};

    ghost Value = { Granted };

    ghost coded = { Prim.hlevel (codes, coded_scope) };

    ghost view = { λ g. record {
      id = g.material.id;
      secret = g.material.secret;
      salt = g.material.salt;
      id_context = g.material.id_context;
      alg = g.material.alg;
      scope = g.scope;
      not_before = g.not_before;
      expires = g.expires;
      holder = g.holder;
    } };
}

// The secret isn't printed.
impl fmt::Debug for Grant {
    fn fmt<W: fmt::Write>(&self, f: &mut fmt::Formatter<W>) -> fmt::Result {
        f.write_str("Grant")
    }
}

/// A grant, and the text of the claims that were sealed into its token. Contracts see a record of the two.
pub struct Minted {
    /// The grant.
    pub grant: Grant,
    /// The claims as CBOR: the plaintext of the token (RFC 8392 section 7).
    pub text: Bytes,
}

impl Drop for Minted {
    fn drop(self) {
        let Minted { grant: _, text: _ } = self;
    }
}

impl Model for Minted {
    ghost use Rattle.std.specs.Coded.{codes};
    ghost use Rattle.osc_model.specs.{coded_scope};
    ghost use Rattle.osc_run.specs.States.{Minted as MintedGrant};

    ghost Value = { MintedGrant };

    ghost coded = { Prim.hlevel (codes, coded_scope) };

    ghost view = { λ m. record { grant = m.grant; text = m.text } };
}

// A token's plaintext isn't printed.
impl fmt::Debug for Minted {
    fn fmt<W: fmt::Write>(&self, f: &mut fmt::Formatter<W>) -> fmt::Result {
        f.write_str("Minted")
    }
}
