//! Which columns a chart needs.
ghost use Rattle.std.specs.Prelude.{◌≡◌, ◌++◌, ◌∷◌, [], IfOk, OnOk, filter};
ghost use Rattle.osc_diagram.specs.Chart.Chart as spec;

use crate::chart::chart::{Column, Mark};
use std::alloc::{AllocError, Global};

/// Those of the columns at which a mark begins, ends or is, in their order.
pub fn met_columns(
    alloc: Global,
    columns: &[Column],
    marks: &[Mark],
) -> Result<Vec<Column>, AllocError>
    ensures { IfOk result (λ met. met.items ≡ filter (spec.is_met marks.now) columns.now) }
{
    let mut met = Vec::new(alloc);
    for column in columns {
        add_met(&mut met, column, marks)?;
    }
    Ok(met)
}

// Adds the column, if a mark is at it.
fn add_met(met: &mut Vec<Column>, column: &Column, marks: &[Mark]) -> Result<(), AllocError>
    ensures { OnOk result (met.new.items ≡ met.old.items ++ filter (spec.is_met marks.now) (column.now ∷ [])) }
{
    if is_met(marks, column) {
        return Ok(met.push(*column)?);
    }
    Ok(())
}

fn is_met(marks: &[Mark], column: &Column) -> bool
    ensures { result ≡ spec.is_met marks.now column.now }
{
    marks.iter().any(|mark| touches(mark, column))
}

// Whether the mark begins, ends or is at the column.
fn touches(mark: &Mark, column: &Column) -> bool
    ensures { result ≡ spec.touches column.now mark.now }
{
    match mark {
        Mark::Arrow(arrow) => column.at == arrow.from || column.at == arrow.to,
        Mark::Note { at, .. } => column.at == *at,
        Mark::Time(_) => false,
    }
}
