//! What must not be in the plaintext of a request (RFC 7252 section 5.4.1, RFC 8613 section 4.1).
ghost use Rattle.std.specs.Prelude.{◌≡◌, ◌||◌, ◌&&◌, None, not, IfOk, IfErr};
ghost use Rattle.osc_options.specs.declared.table.Class.TheVariants.{U};
ghost use Rattle.osc_options.specs.Inner.Fields.{AreFieldsOf, without_memory as without_memory_of};
ghost use Rattle.osc_options.specs.PlaintextRequests.{refused_option as refused_option_in};
ghost use Rattle.osc_options.specs.Recognised.{recognised};
ghost use Rattle.osc_options.specs.Split.{same_class};
ghost use Rattle.osc_options.specs.Table as table;

use crate::error::PlaintextError;
use crate::fields::{Fields, add_field};
use crate::recognised::is_recognised;
use crate::table::{Class, class_of, is_critical};
use osc_coap::PlaintextRef;
use std::alloc::Global;

/// Whether an option of this number must not be there: it is of class U, or critical and not recognised.
#[inline(always)]
fn is_refused_option(number: u16, known: bool) -> bool
    ensures { result ≡ (same_class U (table.class_of number) || table.is_critical number && not known) }
{
    class_of(number) == Class::U || (is_critical(number) && !known)
}

/// The first option of the plaintext that must not be there, by its number.
pub(crate) fn refused_option(plaintext: &PlaintextRef<'_>) -> Option<u16>
    ensures { result ≡ refused_option_in 0 plaintext.now.options }
{
    let mut before = 0;
    for (number, value) in plaintext.options() {
        if is_refused_option(number, is_recognised(before, number, value)) {
            return Some(number);
        }
        before = number;
    }
    None
}

/// Why the plaintext is no request where no more of it can be read without memory.
fn without_memory(plaintext: &PlaintextRef<'_>) -> PlaintextError
    ensures { result ≡ without_memory_of (refused_option_in 0 plaintext.now.options) }
{
    match refused_option(plaintext) {
        Some(number) => PlaintextError::BadOption(number),
        None => PlaintextError::Memory,
    }
}

/// The values that a request is made of, in one pass over the options of its plaintext. The error is the first option that must
/// not are there; where there is none, it is `Memory`.
pub(crate) fn accepted_fields<'a>(
    alloc: Global,
    plaintext: &PlaintextRef<'a>,
) -> Result<Fields<'a>, PlaintextError>
    ensures accepted { IfOk result (λ _. refused_option_in 0 plaintext.now.options ≡ None) }
    ensures fields { IfOk result (λ fields. AreFieldsOf (recognised 0 plaintext.now.options) fields) }
    ensures error { IfErr result (λ error. error ≡ without_memory_of (refused_option_in 0 plaintext.now.options)) }
{
    let mut fields = Fields::new(alloc);
    let mut before = 0;
    for (number, value) in plaintext.options() {
        let known = is_recognised(before, number, value);
        if is_refused_option(number, known) {
            return Err(PlaintextError::BadOption(number));
        }
        if known && add_field(alloc, &mut fields, number, value).is_err() {
            return Err(without_memory(plaintext));
        }
        before = number;
    }
    Ok(fields)
}
