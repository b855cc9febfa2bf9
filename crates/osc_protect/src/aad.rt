//! The associated data of a request and of its response (RFC 8613 section 5.4).

ghost use Rattle.std.specs.Prelude.{◌≡◌, ◌+◌, ◌≤◌, ◌<◌, ◌++◌, length};
ghost use Rattle.arrayvec.specs.ArrayVec.{array_vec_len};
ghost use Rattle.osc_model.specs.{algorithm_number};
ghost use Rattle.osc_cbor.specs.{byte_string, unsigned, spelling};
ghost use Rattle.osc_context.specs.{algorithm_of as algorithm, longest_id, greatest_number};
ghost use Rattle.osc_protect.specs.Aad.{external_aad as external, aad_of};

use arrayvec::ArrayVec;
use osc_cbor::{Major, head};
use osc_context::{algorithm_of, partial_iv_of};
use osc_model::{AssociatedData, ContextName};

/// The most bytes of the associated data: 11 are before the external one, which has a head of one byte, and at most 20: 5
/// for the version and the algorithm, 8 for the ID, 6 for the Partial IV, and one for no options.
const AAD_LENGTH: usize = 32;

/// The head of an array of five items, version 1, and the head of an array of one algorithm.
const BEGINNING: [u8; 3] = [0x85, 1, 0x81];

/// The head of an array of three items, the context "Encrypt0", and an empty protected header (RFC 9052 section 5.3).
const STRUCTURE: [u8; 11] = *b"\x83\x68Encrypt0\x40";

/// Appends a byte string for which there is room.
fn append_string(bytes: &[u8], out: &mut ArrayVec<u8, AAD_LENGTH>)
    requires short { length bytes.now < 24 }
    requires room { length out.old.items + 1 + length bytes.now ≤ AAD_LENGTH }
    ensures value { out.new.items ≡ out.old.items ++ spelling (byte_string bytes.now) }
    ensures length { length out.new.items ≡ length out.old.items + 1 + length bytes.now }
{
    let head = head(Major::Bytes, bytes.len() as u64);
    out.try_extend_from_slice(head.as_slice()).unwrap();
    out.try_extend_from_slice(bytes).unwrap();
}

/// Appends the number of the context's algorithm, for which there is room.
fn append_algorithm(name: &ContextName, out: &mut ArrayVec<u8, AAD_LENGTH>)
    requires room { length out.old.items + 2 ≤ AAD_LENGTH }
    ensures value { out.new.items ≡ out.old.items ++ spelling (unsigned (algorithm_number (algorithm name.now))) }
    ensures length { length out.new.items ≤ length out.old.items + 2 }
{
    let head = head(Major::Unsigned, algorithm_of(name).number());
    out.try_extend_from_slice(head.as_slice()).unwrap();
}

/// The external associated data.
fn external_aad(name: &ContextName, number: u64) -> ArrayVec<u8, AAD_LENGTH>
    requires id { length name.now.client_id ≤ longest_id }
    requires number { number ≤ greatest_number }
    ensures value { result.items ≡ external name.now number }
    ensures short { length result.items ≤ 20 }
{
    let mut out = ArrayVec::new();
    out.try_extend_from_slice(&BEGINNING).unwrap();
    append_algorithm(name, &mut out);
    append_string(name.client_id.as_slice(), &mut out);
    append_string(partial_iv_of(number).as_slice(), &mut out);
    append_string(&[], &mut out);
    out
}

/// The bytes of the cipher's associated data.
fn enc_structure(name: &ContextName, number: u64) -> ArrayVec<u8, AAD_LENGTH>
    requires id { length name.now.client_id ≤ longest_id }
    requires number { number ≤ greatest_number }
    ensures value { result.items ≡ aad_of name.now number }
    ensures short { array_vec_len result ≤ AAD_LENGTH }
{
    let external = external_aad(name, number);
    let mut out = ArrayVec::new();
    out.try_extend_from_slice(&STRUCTURE).unwrap();
    append_string(external.as_slice(), &mut out);
    out
}

/// The cipher's associated data, of a request with this number and of the responses to it; takes no memory.
pub fn associated_data(name: &ContextName, number: u64) -> AssociatedData
    requires id { length name.now.client_id ≤ longest_id }
    requires number { number ≤ greatest_number }
    ensures value { result ≡ aad_of name.now number }
    ensures short { length result ≤ AAD_LENGTH }
{
    let bytes = enc_structure(name, number);
    AssociatedData::from_slice(bytes.as_slice())
}
