//! Numbers as bytes, the most significant first.
ghost use Rattle.std.specs.Prelude.{◌≡◌, ◌++◌, OnOk};
ghost use Rattle.osc_diagram.specs.Chart.Capture as spec;

use std::alloc::AllocError;

/// The number modulo 2^16 as 2 bytes.
pub(crate) fn add_two(bytes: &mut Vec<u8>, number: u64) -> Result<(), AllocError>
    ensures { OnOk result (bytes.new.items ≡ bytes.old.items ++ spec.two number) }
{
    bytes.push((number / 256 % 256) as u8)?;
    bytes.push((number % 256) as u8)?;
    Ok(())
}

/// The number modulo 2^32 as 4 bytes.
pub(crate) fn add_four(bytes: &mut Vec<u8>, number: u64) -> Result<(), AllocError>
    ensures { OnOk result (bytes.new.items ≡ bytes.old.items ++ spec.four number) }
{
    add_two(bytes, number / 65536)?;
    add_two(bytes, number)
}
