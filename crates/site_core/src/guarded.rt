//! Turns after which a site is spent where it ran out of memory.

ghost use Rattle.std.specs.Prelude.{◌≡◌, ◌+◌, ◌≤◌, ◌^◌, length, Err, IfOk, OnErr, OnOk, false, true};
ghost use Rattle.tree_node.specs.declared.limits.TheConstants.{MOST_UNITS};
ghost use Rattle.site_units.specs.declared.replay.Replay.TheVariants.{NotRunnable};
ghost use Rattle.site_units.specs.Core.{site_of};
ghost use Rattle.site_units.specs.Outputs.{IsEmpty};
ghost use Rattle.site_units.specs.Invariant.{IsConsistent};
ghost use Rattle.site_core.specs.Invariant.{IsConsistentUnlessSpent};
ghost use Rattle.site_core.specs.Site.{IsTurnInOrder, IsTurnMade, message_in};
ghost use Rattle.site_core.specs.Replay.{IsReplayMade, IsStuckTurn};

use crate::entry::{recorded_replay, recorded_turn};
use crate::start::bare_core;
use kernel_syntax::Program;
use site_message::{Msg, Quantum, Turn};
use site_units::{Core, Output, Replay, site_in};
use std::alloc::AllocError;
use tree_node::ThreadName;

// The data of site `number` of so many are bare, and nothing that its turn made is left.
fn give_up(core: &mut Core, output: &mut Output, number: u32, sites: u32)
    ensures sites { core.new.sites ≡ sites }
    ensures number { (site_of core.new).records.site ≡ number }
{
    *core = bare_core(core.alloc, number, sites);
    *output = Output::new(core.alloc);
}

/// A turn, with the entry that tells it. After want of memory the site is spent, and its data are bare.
#[inline(always)]
pub fn guarded_turn(
    core: &mut Core,
    output: &mut Output,
    spent: &mut bool,
    program: &Program,
    message: Option<(u64, Msg)>,
    quantum: Quantum,
) -> Result<Turn, AllocError>
    requires consistent { IsConsistent program.now core.old }
    requires empty { IsEmpty output.old }
    requires room { core.old.steps ≤ 2 ^ 48 }
    requires most { quantum.0 ≤ MOST_UNITS }
    ensures kept { IsConsistentUnlessSpent program.now core.new output.new spent.new }
    ensures sites { core.new.sites ≡ core.old.sites }
    ensures number { (site_of core.new).records.site ≡ (site_of core.old).records.site }
    ensures turn { IfOk result (λ e. IsTurnMade program.now core.old.sites (site_of core.old) message quantum.0 e (site_of core.new)) }
    ensures order { IfOk result (λ e. IsTurnInOrder program.now core.old.sites (site_of core.old) (message_in message) e (site_of core.new) core.old.threads.order core.new.threads.order) }
    ensures steps { OnOk result (core.new.steps ≤ core.old.steps + quantum.0) }
    ensures live { OnOk result (spent.new ≡ false) }
    ensures over { OnErr result (spent.new ≡ true) }
{
    let number = site_in(&core.fresh);
    let sites = core.sites;
    let made = recorded_turn(core, output, program, message, quantum);
    if made.is_err() {
        *spent = true;
        give_up(core, output, number, sites);
        return made;
    }
    *spent = false;
    made
}

/// A turn of units of these threads, with the entry that tells it. Where a thread cannot go on when its unit comes, and after want
/// of memory, the site is spent, and its data are bare.
#[inline(always)]
pub fn guarded_replay(
    core: &mut Core,
    output: &mut Output,
    spent: &mut bool,
    program: &Program,
    message: Option<(u64, Msg)>,
    threads: &[ThreadName],
) -> Result<Turn, Replay>
    requires consistent { IsConsistent program.now core.old }
    requires empty { IsEmpty output.old }
    requires room { core.old.steps ≤ 2 ^ 48 }
    requires most { length threads.now ≤ MOST_UNITS }
    ensures kept { IsConsistentUnlessSpent program.now core.new output.new spent.new }
    ensures sites { core.new.sites ≡ core.old.sites }
    ensures number { (site_of core.new).records.site ≡ (site_of core.old).records.site }
    ensures turn { IfOk result (λ e. IsReplayMade program.now core.old.sites (site_of core.old) message threads.now e (site_of core.new)) }
    ensures stuck { (at : _) → result ≡ Err (NotRunnable at) → IsStuckTurn program.now core.old.sites (site_of core.old) (message_in message) threads.now at }
    ensures steps { OnOk result (core.new.steps ≤ core.old.steps + length threads.now) }
    ensures live { OnOk result (spent.new ≡ false) }
    ensures over { OnErr result (spent.new ≡ true) }
{
    let number = site_in(&core.fresh);
    let sites = core.sites;
    let made = recorded_replay(core, output, program, message, threads);
    if made.is_err() {
        *spent = true;
        give_up(core, output, number, sites);
        return made;
    }
    *spent = false;
    made
}
