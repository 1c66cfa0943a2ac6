//! Numbers as texts have them.

ghost use Rattle.std.specs.Prelude.{decimal};
ghost use Rattle.byte_fields.specs.Writing.{IsPut};

use std::alloc::AllocError;
use std::io::Write;

/// Puts a number in decimal behind what stands.
pub fn put_number(out: &mut Vec<u8>, number: u64) -> Result<(), AllocError>
    ensures { IsPut (decimal number) out.old.items out.new.items result }
{
    write!(out, "{number}").map_err(|_| AllocError)
}
