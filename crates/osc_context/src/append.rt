//! CBOR items (RFC 8949 section 3), each appended to bytes. For lack of memory nothing more is said of the bytes.

ghost use Rattle.std.specs.Prelude.{◌≡◌, ◌++◌, OnOk};
ghost use Rattle.osc_cbor.specs.{unsigned, byte_string, text_string, head, major_number, spelling};
ghost use Rattle.osc_context.specs.Derivation.{id_context_item};

use osc_cbor::Major;
use osc_model::Bytes;
use std::alloc::AllocError;

/// Appends a head with the shortest argument.
pub fn append_head(out: &mut Vec<u8>, major: Major, argument: u64) -> Result<(), AllocError>
    ensures { OnOk result (out.new.items ≡ out.old.items ++ head (major_number major) argument) }
{
    out.extend_from_slice(osc_cbor::head(major, argument).as_slice())
}

/// Appends a number.
pub fn append_unsigned(out: &mut Vec<u8>, number: u64) -> Result<(), AllocError>
    ensures { OnOk result (out.new.items ≡ out.old.items ++ spelling (unsigned number)) }
{
    append_head(out, Major::Unsigned, number)
}

/// Appends a byte string.
pub fn append_bytes(out: &mut Vec<u8>, bytes: &[u8]) -> Result<(), AllocError>
    ensures { OnOk result (out.new.items ≡ out.old.items ++ spelling (byte_string bytes.now)) }
{
    append_head(out, Major::Bytes, bytes.len() as u64)?;
    out.extend_from_slice(bytes)
}

/// Appends a text of these bytes.
pub fn append_text(out: &mut Vec<u8>, text: &[u8]) -> Result<(), AllocError>
    ensures { OnOk result (out.new.items ≡ out.old.items ++ spelling (text_string text.now)) }
{
    append_head(out, Major::Text, text.len() as u64)?;
    out.extend_from_slice(text)
}

/// Appends the id context, or null where there is none.
pub fn append_id_context(out: &mut Vec<u8>, id_context: &Option<Bytes>) -> Result<(), AllocError>
    ensures { OnOk result (out.new.items ≡ out.old.items ++ spelling (id_context_item id_context.now)) }
{
    match id_context {
        None => out.extend_from_slice(&[0xf6]),
        Some(id_context) => append_bytes(out, id_context.as_slice()),
    }
}
