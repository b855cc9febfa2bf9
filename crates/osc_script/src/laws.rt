//! A law of the definitions, for the crates above. The function does nothing: whoever calls it has its clause for a proof.

ghost use Rattle.std.specs.Prelude.{◌≡◌, ℕ, List};
ghost use Rattle.osc_script.specs.declared.line.Line.{Line as AnyLine};
ghost use Rattle.osc_script.specs.Grants.{token_key};
ghost use Rattle.osc_script.specs.Script.{IsScript};

use crate::grants::TOKEN_KEY;

/// No text is two scripts.
pub fn one_script()
    ensures { (text : List ℕ) (lines others : List AnyLine) → IsScript text lines → IsScript text others → lines ≡ others }
{}

/// The key of the tokens.
pub fn key_of_tokens()
    ensures { TOKEN_KEY ≡ token_key }
{}
