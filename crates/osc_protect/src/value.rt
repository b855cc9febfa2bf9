//! The value of the OSCORE option (RFC 8613 section 6.1).

ghost use Rattle.std.specs.Prelude.{◌≡◌, ◌+◌, ◌≤◌, ◌++◌, length, Some, IfSome, option_copied};
ghost use Rattle.std.specs.Option.{option_map};
ghost use Rattle.arrayvec.specs.ArrayVec.{array_vec_len};
ghost use Rattle.osc_context.specs.{longest_id, greatest_number};
ghost use Rattle.osc_protect.specs.Value.{Compressed, SpellsValue};
ghost use Rattle.osc_protect.specs.Protection.{HasShortContext, request_value, response_value};
ghost use Rattle.osc_protect.specs.Inner.ValueReading as spec;
ghost use Rattle.osc_protect.specs.Inner.ValueReading.{value_at, parts_at};

use arrayvec::ArrayVec;
use osc_context::partial_iv_of;
use osc_model::ContextName;
use std::marker::Model;

/// The most bytes of the value (RFC 8613 section 2).
pub(crate) const OPTION_LIMIT: usize = 255;

/// The flag bit that says that there is a kid.
const KID_FLAG: u8 = 0x08;

/// The flag bit that says that there is a kid context.
const KID_CONTEXT_FLAG: u8 = 0x10;

/// The header parameters in the value of the OSCORE option; kid and kid context are slices of it.
#[derive(Clone, Debug, Drop)]
pub struct OscoreOption<'a> {
    partial_iv: Option<u64>,
    kid_context: Option<&'a [u8]>,
    kid: Option<&'a [u8]>,
}

impl<'a> Model for OscoreOption<'a> {
    ghost use Rattle.std.specs.Prelude.{option_copied};
    ghost use Rattle.osc_protect.specs.Value.{Compressed};

    ghost Value = { Compressed };

    ghost view = { λ o. record { partial_iv = o.partial_iv; kid_context = option_copied o.kid_context; kid = option_copied o.kid } };
}

/// The number that bytes are, the most significant first.
fn number_in(bytes: &[u8]) -> u64
    requires { length bytes.now ≤ 5 }
    ensures { result ≡ spec.number_in bytes.now }
{
    let mut number = 0;
    for byte in bytes {
        number = 256 * number + *byte as u64;
    }
    number
}

/// Whether there is a zero byte with others after it.
fn has_leading_zero(bytes: &[u8]) -> bool
    ensures { result ≡ spec.has_leading_zero bytes.now }
{
    match bytes {
        [first, _, ..] => *first == 0,
        _ => false,
    }
}

/// The Partial IV in the first `size` bytes, and the bytes after it.
#[tactic(auto, unfolding(crate::specs::Inner::ValueReading::partial_iv_at))]
fn partial_iv_at(size: usize, bytes: &[u8]) -> Option<(Option<u64>, &[u8])>
    ensures { option_map (λ part. (part.0, part.1.now)) result ≡ spec.partial_iv_at size bytes.now }
{
    if size == 0 {
        return Some((None, bytes));
    }
    if size > 5 || bytes.len() < size {
        return None;
    }
    let (number, rest) = bytes.split_at(size);
    if has_leading_zero(number) {
        return None;
    }
    Some((Some(number_in(number)), rest))
}

/// The kid context, where there is one, and the bytes after it.
#[tactic(auto, unfolding(crate::specs::Inner::ValueReading::kid_context_at))]
fn kid_context_at(is_there: bool, bytes: &[u8]) -> Option<(Option<&[u8]>, &[u8])>
    ensures { option_map (λ part. (option_copied part.0, part.1.now)) result ≡ spec.kid_context_at is_there bytes.now }
{
    if !is_there {
        return Some((None, bytes));
    }
    let (size, rest) = bytes.split_first()?;
    if rest.len() < *size as usize {
        return None;
    }
    let (context, rest) = rest.split_at(*size as usize);
    Some((Some(context), rest))
}

/// The kid, where there is one; else nothing may be left.
#[tactic(auto, unfolding(crate::specs::Inner::ValueReading::kid_at))]
fn kid_at(is_there: bool, bytes: &[u8]) -> Option<Option<&[u8]>>
    ensures { option_map option_copied result ≡ spec.kid_at is_there bytes.now }
{
    if is_there {
        return Some(Some(bytes));
    }
    match bytes {
        [] => Some(None),
        _ => None,
    }
}

/// What the flag bits say of the bytes after them.
#[tactic(auto, unfolding(crate::specs::Inner::ValueReading::parts_at))]
fn parts(flags: u8, bytes: &[u8]) -> Option<OscoreOption<'_>>
    ensures { result ≡ parts_at flags bytes.now }
{
    let (partial_iv, rest) = partial_iv_at((flags % 8) as usize, bytes)?;
    let (kid_context, rest) = kid_context_at(flags / KID_CONTEXT_FLAG == 1, rest)?;
    let kid = kid_at(flags / KID_FLAG % 2 == 1, rest)?;
    Some(OscoreOption {
        partial_iv,
        kid_context,
        kid,
    })
}

/// What the value says.
#[tactic(auto, unfolding(crate::specs::Inner::ValueReading::value_at))]
fn read(value: &[u8]) -> Option<OscoreOption<'_>>
    ensures { result ≡ value_at value.now }
{
    match value {
        [] => Some(OscoreOption {
            partial_iv: None,
            kid_context: None,
            kid: None,
        }),
        [flags, rest @ ..] => {
            if *flags == 0 || *flags > 31 {
                return None;
            }
            parts(*flags, rest)
        }
    }
}

impl<'a> OscoreOption<'a> {
    /// What the value says. `None` where it is malformed: a reserved bit set, a Partial IV of 6 or 7 bytes or with a leading
    /// zero byte (but for the one byte of 0), a part that runs past the end, bytes left over without a kid, a flag byte of
    /// zero.
    pub fn parse(value: &'a [u8]) -> Option<OscoreOption<'a>>
        // What is read is spelled so.
        ensures found { IfSome result (λ o. SpellsValue value.now o) }
        // What is spelled so is read.
        ensures only { (c : Compressed) → SpellsValue value.now c → result ≡ Some c }
    {
        read(value)
    }

    /// The number of the Partial IV.
    pub fn partial_iv(&self) -> Option<u64>
        ensures { result ≡ self.now.partial_iv }
    {
        self.partial_iv
    }

    /// The kid context.
    pub fn kid_context(&self) -> Option<&'a [u8]>
        ensures { option_copied result ≡ self.now.kid_context }
    {
        self.kid_context
    }

    /// The kid.
    pub fn kid(&self) -> Option<&'a [u8]>
        ensures { option_copied result ≡ self.now.kid }
    {
        self.kid
    }
}

/// Appends bytes for which there is room.
fn append(out: &mut ArrayVec<u8, OPTION_LIMIT>, bytes: &[u8])
    requires { array_vec_len out.old + length bytes.now ≤ OPTION_LIMIT }
    ensures { out.new.items ≡ out.old.items ++ bytes.now }
{
    let _ = out.try_extend_from_slice(bytes);
}

/// The value of a request's option: Partial IV, kid, and the id context where there is one.
pub fn request_option(name: &ContextName, number: u64) -> ArrayVec<u8, OPTION_LIMIT>
    requires number { number ≤ greatest_number }
    requires short { HasShortContext name.now }
    requires id { length name.now.client_id ≤ longest_id }
    ensures { result.items ≡ request_value name.now number }
{
    let partial_iv = partial_iv_of(number);
    let mut out = ArrayVec::new();
    let flags = KID_FLAG + partial_iv.len() as u8;
    match &name.id_context {
        Some(id_context) => {
            out.push(KID_CONTEXT_FLAG + flags);
            append(&mut out, &partial_iv);
            out.push(id_context.len() as u8);
            append(&mut out, id_context.as_slice());
        }
        None => {
            out.push(flags);
            append(&mut out, &partial_iv);
        }
    }
    append(&mut out, name.client_id.as_slice());
    out
}

/// The value of a response's option: the Partial IV of its own, where it has one.
pub(crate) fn response_option(own: Option<u64>) -> ArrayVec<u8, OPTION_LIMIT>
    requires { IfSome own (λ n. n ≤ greatest_number) }
    ensures { result.items ≡ response_value own }
{
    let mut out = ArrayVec::new();
    if let Some(number) = own {
        let partial_iv = partial_iv_of(number);
        out.push(partial_iv.len() as u8);
        append(&mut out, &partial_iv);
    }
    out
}
