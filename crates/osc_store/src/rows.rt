//! A resource as a row of the table.
ghost use Rattle.std.specs.Prelude.{◌≡◌, ◌↔◌, IfOk, IfSome, IfNone, IsTrue, OnOk, List, ℕ};
ghost use Rattle.sqlite_value.specs.Order.{column};
ghost use Rattle.sqlite_value.specs.declared.value.Value.TheVariants.{Text};
ghost use Rattle.osc_model.specs.declared.resource.Resource.{Resource as AnyResource};
ghost use Rattle.osc_store.specs.Rows.{IsServableAt, key_of, row_of};

use osc_model::{Bytes, Path, Resource};
use sqlite_value::row::Row;
use sqlite_value::value::ValueRef;
use std::alloc::{AllocError, Global};

/// Writes the key of this path over the row.
pub(crate) fn write_key(row: &mut Row, path: &Path) -> Result<(), AllocError>
    ensures { OnOk result (row.new ≡ key_of path.now) }
{
    row.clear();
    row.push(ValueRef::Text(path.text()))
}

/// Writes what the path has over the row.
pub(crate) fn write_row(row: &mut Row, path: &Path, resource: &Resource) -> Result<(), AllocError>
    ensures { OnOk result (row.new ≡ row_of (path.now, resource.now)) }
{
    row.clear();
    row.push(ValueRef::Text(path.text()))?;
    row.push(match resource.format {
        None => ValueRef::Null,
        Some(format) => ValueRef::Int(i64::from(format)),
    })?;
    row.push(ValueRef::Blob(resource.payload.as_slice()))
}

/// What the row says, where it is a row of a resource.
pub(crate) fn read_row(alloc: Global, row: &Row) -> Result<Option<(Path, Resource)>, AllocError>
    ensures found { IfOk result (λ found. IfSome found (λ entry. row.now ≡ row_of entry)) }
    ensures none { (entry : List ℕ × AnyResource) → IsServableAt entry → row.now ≡ row_of entry → IfOk result (λ found. IfNone found ⊥) }
{
    if row.len() != 3 {
        return Ok(None);
    }
    let format = match row.get(1) {
        ValueRef::Null => None,
        ValueRef::Int(n) => match u16::try_from(n) {
            Ok(format) => Some(format),
            Err(_) => return Ok(None),
        },
        _ => return Ok(None),
    };
    let (ValueRef::Text(text), ValueRef::Blob(payload)) = (row.get(0), row.get(2)) else {
        return Ok(None);
    };
    let Some(path) = Path::from_text(alloc, text)? else {
        return Ok(None);
    };
    let payload = Bytes::from_slice(alloc, payload)?;
    Ok(Some((path, Resource { format, payload })))
}

/// Whether the row is of this path.
pub(crate) fn is_at(row: &Row, path: &Path) -> bool
    ensures { IsTrue result ↔ (column row.now 0 ≡ Text path.now) }
{
    match row.get(0) {
        ValueRef::Text(text) => text == path.text(),
        _ => false,
    }
}
