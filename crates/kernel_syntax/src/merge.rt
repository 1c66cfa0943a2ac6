//! The positions of two lists.

ghost use Rattle.std.specs.Prelude.{◌≡◌, ◌≤◌, ◌++◌, length, drop, OnOk};
ghost use Rattle.kernel_syntax.specs.Free.{AreRising, with_positions};

use std::alloc::AllocError;

/// Puts the positions of two lists in ascending order behind others.
pub fn merge(positions: &mut Vec<u32>, some: &[u32], more: &[u32]) -> Result<(), AllocError>
    requires some { AreRising some.now }
    requires more { AreRising more.now }
    ensures { OnOk result (positions.new.items ≡ positions.old.items ++ with_positions some.now more.now) }
{
    let mut i = 0;
    let mut j = 0;
    while i < some.len() && j < more.len() {
        let (x, y) = (some[i], more[j]);
        if x < y {
            positions.push(x)?;
            i += 1;
        } else {
            positions.push(y)?;
            j += 1;
            if x == y {
                i += 1;
            }
        }
    }
    append_from(positions, some, i)?;
    append_from(positions, more, j)
}

// Puts the positions of a list from a place on behind others. They are few, so each is put by itself.
fn append_from(positions: &mut Vec<u32>, list: &[u32], from: usize) -> Result<(), AllocError>
    requires { from ≤ length list.now }
    ensures { OnOk result (positions.new.items ≡ positions.old.items ++ drop from list.now) }
{
    let mut at = from;
    while at < list.len() {
        positions.push(list[at])?;
        at += 1;
    }
    Ok(())
}
