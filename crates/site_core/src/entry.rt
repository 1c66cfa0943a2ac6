//! A turn and its entry.

ghost use Rattle.std.specs.Prelude.{◌≡◌, ◌+◌, ◌≤◌, ◌^◌, length, Err, IfOk, OnOk};
ghost use Rattle.tree_node.specs.declared.limits.TheConstants.{MOST_UNITS};
ghost use Rattle.site_model.specs.Run.{IsRecordOf};
ghost use Rattle.site_units.specs.declared.replay.Replay.TheVariants.{NotRunnable};
ghost use Rattle.site_units.specs.Core.{site_of};
ghost use Rattle.site_units.specs.Outputs.{IsEmpty};
ghost use Rattle.site_units.specs.Invariant.{IsConsistent};
ghost use Rattle.site_core.specs.Site.{IsTurnInOrder, IsTurnMade, message_in, number_in};
ghost use Rattle.site_core.specs.Replay.{IsReplayMade, IsStuckTurn, transition_of};

use crate::replay::replay;
use crate::turn::turn;
use kernel_syntax::Program;
use site_message::{Msg, Quantum, Turn, Units};
use site_units::{Core, Made, Output, Replay, site_in};
use std::alloc::AllocError;
use tree_node::ThreadName;

// The number of a numbered message.
fn number_of(message: &Option<(u64, Msg)>) -> Option<u64>
    ensures { result ≡ number_in message.now }
{
    match message {
        None => None,
        Some(message) => Some(message.0),
    }
}

// The entry that tells what a turn of these units made, which is taken out of the output. The totals are looked up.
#[inline(always)]
fn entry_of(
    core: &Core,
    output: &mut Output,
    site: u32,
    delivered: Option<u64>,
    units: Units,
) -> Result<Turn, AllocError>
    ensures record { IfOk result (λ e. IsRecordOf e (transition_of core.now output.old)) }
    ensures empty { OnOk result (IsEmpty output.new) }
    ensures site { IfOk result (λ e. e.site ≡ site) }
    ensures delivered { IfOk result (λ e. e.delivered ≡ delivered) }
    ensures units { IfOk result (λ e. e.units ≡ units) }
{
    let Made { picks, sent, lines } = output.take(core.alloc)?;
    Ok(Turn {
        site,
        delivered,
        units,
        picks,
        sent,
        lines,
        idle: core.threads.is_idle(),
        ended: core.threads.ended() as u64,
        waiting: core.threads.waiting() as u64,
        steps: core.steps,
    })
}

/// A turn, with the entry that tells it, by an output of which the site keeps the memory. Its totals are looked up. After want of memory the
/// data are given up.
pub fn recorded_turn(
    core: &mut Core,
    output: &mut Output,
    program: &Program,
    message: Option<(u64, Msg)>,
    quantum: Quantum,
) -> Result<Turn, AllocError>
    requires consistent { IsConsistent program.now core.old }
    requires empty { IsEmpty output.old }
    requires room { core.old.steps ≤ 2 ^ 48 }
    requires most { quantum.0 ≤ MOST_UNITS }
    ensures empty { OnOk result (IsEmpty output.new) }
    ensures turn { IfOk result (λ e. IsTurnMade program.now core.old.sites (site_of core.old) message quantum.0 e (site_of core.new)) }
    ensures consistent { OnOk result (IsConsistent program.now core.new) }
    ensures sites { OnOk result (core.new.sites ≡ core.old.sites) }
    ensures number { OnOk result ((site_of core.new).records.site ≡ (site_of core.old).records.site) }
    ensures order { IfOk result (λ e. IsTurnInOrder program.now core.old.sites (site_of core.old) (message_in message) e (site_of core.new) core.old.threads.order core.new.threads.order) }
    ensures steps { OnOk result (core.new.steps ≤ core.old.steps + quantum.0) }
{
    let site = site_in(&core.fresh);
    let delivered = number_of(&message);
    let mut units = Units::new(core.alloc);
    turn(core, output, program, message, quantum, &mut units)?;
    entry_of(core, output, site, delivered, units)
}

/// A turn of units of these threads, with the entry that tells it. Where a thread cannot go on when its unit comes, and after want
/// of memory, the data are given up.
pub fn recorded_replay(
    core: &mut Core,
    output: &mut Output,
    program: &Program,
    message: Option<(u64, Msg)>,
    threads: &[ThreadName],
) -> Result<Turn, Replay>
    requires consistent { IsConsistent program.now core.old }
    requires empty { IsEmpty output.old }
    requires room { core.old.steps ≤ 2 ^ 48 }
    requires most { length threads.now ≤ MOST_UNITS }
    ensures empty { OnOk result (IsEmpty output.new) }
    ensures turn { IfOk result (λ e. IsReplayMade program.now core.old.sites (site_of core.old) message threads.now e (site_of core.new)) }
    ensures stuck { (at : _) → result ≡ Err (NotRunnable at) → IsStuckTurn program.now core.old.sites (site_of core.old) (message_in message) threads.now at }
    ensures consistent { OnOk result (IsConsistent program.now core.new) }
    ensures sites { OnOk result (core.new.sites ≡ core.old.sites) }
    ensures number { OnOk result ((site_of core.new).records.site ≡ (site_of core.old).records.site) }
    ensures steps { OnOk result (core.new.steps ≤ core.old.steps + length threads.now) }
{
    let site = site_in(&core.fresh);
    let delivered = number_of(&message);
    replay(core, output, program, message, threads)?;
    let units = Units::from_slice(core.alloc, threads)?;
    let entry = entry_of(core, output, site, delivered, units)?;
    Ok(entry)
}
