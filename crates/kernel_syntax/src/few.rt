//! Lists of two and three positions.

ghost use Rattle.std.specs.Prelude.{◌≡◌, ◌<◌, [], ◌∷◌, ◌++◌, OnOk};
ghost use Rattle.kernel_syntax.specs.Free.{with_position, with_positions};

use crate::position_lists::PositionLists;
use std::alloc::AllocError;

/// One list more, of two positions in ascending order.
#[tactic(auto, using(crate::proofs::FewLemmas::two_up, crate::proofs::FewLemmas::two_same, crate::proofs::FewLemmas::two_down))]
pub fn push_two(lists: &mut PositionLists, a: u32, b: u32) -> Result<(), AllocError>
    ensures { OnOk result (lists.new ≡ lists.old ++ with_positions [] (a ∷ b ∷ []) ∷ []) }
{
    if a < b {
        lists.push(&[a, b])
    } else if a == b {
        lists.push(&[a])
    } else {
        lists.push(&[b, a])
    }
}

/// One list more, of three positions in ascending order.
#[tactic(auto, using(crate::proofs::FewLemmas::first_up, crate::proofs::FewLemmas::first_same, crate::proofs::FewLemmas::first_down))]
pub fn push_three(lists: &mut PositionLists, a: u32, b: u32, c: u32) -> Result<(), AllocError>
    ensures { OnOk result (lists.new ≡ lists.old ++ with_positions [] (a ∷ b ∷ c ∷ []) ∷ []) }
{
    if a < b {
        push_third(lists, a, b, c)
    } else if a == b {
        push_two(lists, a, c)
    } else {
        push_third(lists, b, a, c)
    }
}

// The same, where the first is below the second.
#[tactic(auto, using(crate::proofs::FewLemmas::third_above, crate::proofs::FewLemmas::third_last))]
fn push_third(lists: &mut PositionLists, low: u32, high: u32, c: u32) -> Result<(), AllocError>
    requires { low < high }
    ensures { OnOk result (lists.new ≡ lists.old ++ with_position c (low ∷ high ∷ []) ∷ []) }
{
    if high < c {
        lists.push(&[low, high, c])
    } else if high == c {
        lists.push(&[low, high])
    } else {
        push_below(lists, low, high, c)
    }
}

// The same, where it is below the second too.
#[tactic(auto, using(crate::proofs::FewLemmas::third_first, crate::proofs::FewLemmas::third_same, crate::proofs::FewLemmas::third_between))]
fn push_below(lists: &mut PositionLists, low: u32, high: u32, c: u32) -> Result<(), AllocError>
    requires { c < high }
    ensures { OnOk result (lists.new ≡ lists.old ++ with_position c (low ∷ high ∷ []) ∷ []) }
{
    if low < c {
        lists.push(&[low, c, high])
    } else if low == c {
        lists.push(&[low, high])
    } else {
        lists.push(&[c, low, high])
    }
}
