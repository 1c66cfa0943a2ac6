//! Messages get their bundles as a unit or a row ends: what the site knows then is what it knew as it sent them.

ghost use Rattle.std.specs.Prelude.{◌≡◌, ◌≤◌, ◌+◌, ◌++◌, OnOk, IfOk, length, take, drop};
ghost use Rattle.site_model.specs.Bundle.{bundle_limit, with_own_bundles};

use crate::data::{Core, Output};
use marshal::pack;
use site_message::{Outbox, Sent};
use std::alloc::{AllocError, Global};
use tree_store::Store;

// How many equations a message carries at most.
const BUNDLE_LIMIT: usize = 256;

/// The messages behind the first `from` get their bundles. Where there are none it costs nothing.
pub fn pack_sent(core: &Core, output: &mut Output, from: usize) -> Result<(), AllocError>
    ensures sent { OnOk result (output.new.sent ≡ take from output.old.sent ++ with_own_bundles bundle_limit core.now.variables.store.equations (drop from output.old.sent)) }
    ensures picks { output.new.picks ≡ output.old.picks }
    ensures lines { output.new.lines ≡ output.old.lines }
{
    if output.sent.len() <= from {
        return Ok(());
    }
    pack_behind(core, output, from)
}

// The messages behind the first `from`, of which there are some, get their bundles. It is not inlined, so that most units do
// without the stack memory that it needs.
#[inline(never)]
fn pack_behind(core: &Core, output: &mut Output, from: usize) -> Result<(), AllocError>
    requires some { from ≤ length output.old.sent }
    ensures sent { OnOk result (output.new.sent ≡ take from output.old.sent ++ with_own_bundles bundle_limit core.now.variables.store.equations (drop from output.old.sent)) }
    ensures picks { output.new.picks ≡ output.old.picks }
    ensures lines { output.new.lines ≡ output.old.lines }
{
    if output.sent.len() - from == 1 {
        return pack_one(core, output, from);
    }
    let packed = pack_last(core.alloc, &core.variables.store, &mut output.sent, from)?;
    output.sent.append(packed)
}

// The only message behind the first `from` gets its bundle, in its place.
#[tactic(auto, using(crate::proofs::PackLemmas::one_behind))]
fn pack_one(core: &Core, output: &mut Output, from: usize) -> Result<(), AllocError>
    requires one { from + 1 ≡ length output.old.sent }
    ensures sent { OnOk result (output.new.sent ≡ take from output.old.sent ++ with_own_bundles bundle_limit core.now.variables.store.equations (drop from output.old.sent)) }
    ensures picks { output.new.picks ≡ output.old.picks }
    ensures lines { output.new.lines ≡ output.old.lines }
{
    let _ = from;
    match output.sent.pop() {
        None => unreachable!(),
        Some(last) => {
            let packed = pack(core.alloc, &core.variables.store, last, BUNDLE_LIMIT)?;
            output.sent.push(packed)?;
            Ok(())
        }
    }
}

// Takes the messages behind the first `from` out, and gives them in their order, each with its bundle.
fn pack_last(
    alloc: Global,
    store: &Store,
    sent: &mut Outbox,
    from: usize,
) -> Result<Vec<Sent>, AllocError>
    requires some { from ≤ length sent.old }
    ensures rest { OnOk result (sent.new ≡ take from sent.old) }
    ensures packed { IfOk result (λ v. v.items ≡ with_own_bundles bundle_limit store.now.equations (drop from sent.old)) }
{
    let count = sent.len() - from;
    let mut packed = Vec::new(alloc);
    for taken in 0..count {
        // The loop's invariant counts by it.
        let _ = taken;
        match sent.pop() {
            None => unreachable!(),
            Some(last) => packed.push(pack(alloc, store, last, BUNDLE_LIMIT)?)?,
        }
    }
    packed.reverse();
    Ok(packed)
}
