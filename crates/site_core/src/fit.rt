//! Which messages are fit for a site.

ghost use Rattle.std.specs.Prelude.{◌≡◌, ◌↔◌, IsTrue, Some};
ghost use Rattle.tree_node.specs.Each.{Each};
ghost use Rattle.site_message.specs.Wire.{FitsWire};
ghost use Rattle.name_supply.specs.Supply.{site_in as site_among};
ghost use Rattle.site_model.specs.Fit.{IsFit, CanTake, CodesFit};
ghost use Rattle.site_variables.specs.Fit.{IsBoundOf};
ghost use Rattle.site_units.specs.Core.{site_of};
ghost use Rattle.site_units.specs.Invariant.{IsConsistent};
ghost use Rattle.site_core.specs.Fitting.{IsEquationFit, PartsFit, IsForEnd, IsForContent, WaitsForEnd, WaitsForContent, HasPort, IsUnheard};

use kernel_syntax::Program;
use name_supply::Fresh;
use site_cells::laws::tables_take_as_sites;
use site_message::{Msg, wire_fits};
use site_units::{Core, site_in};
use site_variables::{Bounds, bundle_of, names_fit, sites_fit};
use thread_machine::{term_fits, vars_fit};
use thread_roster::{Awaited, Mode};
use tree_node::{CellName, PortName, Term, ThreadName, VarName};

// Whether the term of an equation fits the program.
fn equation_fits(program: &Program, equation: &(VarName, Term)) -> bool
    ensures { IsTrue result ↔ IsEquationFit program.now equation.now }
{
    term_fits(program, &equation.1)
}

// Whether the terms of equations fit the program.
#[tactic(auto, using(site_message::proofs::EachLemmas::each_step, site_message::proofs::EachLemmas::each_stop, site_message::proofs::EachLemmas::each_end))]
fn equations_fit(program: &Program, equations: &[(VarName, Term)]) -> bool
    ensures { IsTrue result ↔ Each (IsEquationFit program.now) equations.now }
{
    for equation in equations {
        if !equation_fits(program, equation) {
            return false;
        }
    }
    true
}

// Whether the codes and the terms of a message fit the program.
fn parts_fit(program: &Program, msg: &Msg) -> bool
    ensures { IsTrue result ↔ PartsFit program.now msg.now }
{
    match msg {
        Msg::Spawn {
            code,
            vars,
            bundle,
            ..
        } => vars_fit(program, *code, vars) && equations_fit(program, bundle.as_slice()),
        Msg::BindReq { term, bundle, .. } | Msg::Binding { term, bundle, .. } => {
            term_fits(program, term) && equations_fit(program, bundle.as_slice())
        }
        Msg::Put { bundle, .. }
        | Msg::PortEnd { bundle, .. }
        | Msg::CellMake { bundle, .. }
        | Msg::CellAsk { bundle, .. }
        | Msg::CellOld { bundle, .. } => equations_fit(program, bundle.as_slice()),
        _ => true,
    }
}

// Whether the codes of a message that can be spelled are the program's.
fn codes_fit(program: &Program, msg: &Msg) -> bool
    requires { FitsWire msg.now }
    ensures { IsTrue result ↔ CodesFit program.now msg.now }
{
    program.is_program();
    parts_fit(program, msg)
}

// Whether who stands so at this site waits for the end of a port of another site.
fn is_for_end(site: u32, mode: &Mode) -> bool
    ensures { IsTrue result ↔ IsForEnd site mode.now }
{
    match mode {
        Mode::WaitsFor(Awaited::Port(port)) => port.site != site,
        _ => false,
    }
}

// Whether who stands so at this site waits for the content of a stationary cell that is at home elsewhere.
fn is_for_content(site: u32, mode: &Mode) -> bool
    ensures { IsTrue result ↔ IsForContent site mode.now }
{
    match mode {
        Mode::WaitsFor(Awaited::Cell(cell)) => cell.at != 0 && cell.at != site,
        _ => false,
    }
}

// Whether a thread waits here for the end of a port of another site.
fn waits_for_end(core: &Core, thread: ThreadName) -> bool
    requires counted { site_among core.now.fresh ≡ Some core.now.variables.binder.site }
    ensures { IsTrue result ↔ WaitsForEnd core.now thread }
{
    match core.threads.mode(thread) {
        Some(mode) => is_for_end(site_in(&core.fresh), mode),
        None => false,
    }
}

// Whether it waits here for the content of a stationary cell that is at home elsewhere.
fn waits_for_content(core: &Core, thread: ThreadName) -> bool
    requires counted { site_among core.now.fresh ≡ Some core.now.variables.binder.site }
    ensures { IsTrue result ↔ WaitsForContent core.now thread }
{
    match core.threads.mode(thread) {
        Some(mode) => is_for_content(site_in(&core.fresh), mode),
        None => false,
    }
}

// Whether the port was made here.
fn has_port(core: &Core, port: PortName) -> bool
    requires counted { site_among core.now.fresh ≡ Some core.now.variables.binder.site }
    ensures { IsTrue result ↔ HasPort core.now port }
{
    port.site == site_in(&core.fresh) && core.ports.end(port).is_some()
}

// Whether the cell is at home here.
fn is_at_home(core: &Core, cell: CellName) -> bool
    requires counted { site_among core.now.fresh ≡ Some core.now.variables.binder.site }
    ensures { IsTrue result ↔ (cell.at ≡ core.now.variables.binder.site) }
{
    cell.at == site_in(&core.fresh)
}

// Whether the site did not hear yet of a cell that is at home here.
fn is_unheard(core: &Core, cell: CellName) -> bool
    requires counted { site_among core.now.fresh ≡ Some core.now.variables.binder.site }
    ensures { IsTrue result ↔ IsUnheard core.now cell }
{
    is_at_home(core, cell) && !core.homes.is_here(cell)
}

// Whether the conditions of the calls that a message leads to hold.
fn can_take(core: &Core, msg: &Msg) -> bool
    requires tables { core.now.cells.site ≡ core.now.variables.binder.site }
    requires counted { site_among core.now.fresh ≡ Some core.now.variables.binder.site }
    ensures { IsTrue result ↔ CanTake (site_of core.now) msg.now }
{
    tables_take_as_sites();
    match msg {
        Msg::Spawn { thread, .. } => !core.threads.contains(*thread),
        Msg::Get { .. } | Msg::Forward { .. } | Msg::Put { .. } => core.cells.takes(msg),
        Msg::PortSend { port, .. } => has_port(core, *port),
        Msg::PortEnd { thread, .. } => waits_for_end(core, *thread),
        Msg::CellMake { cell, .. } => is_unheard(core, *cell),
        Msg::CellAsk { cell, .. } => is_at_home(core, *cell),
        Msg::CellOld { thread, .. } => waits_for_content(core, *thread),
        Msg::Register { .. } | Msg::BindReq { .. } | Msg::Binding { .. } => {
            core.variables.can_take(msg)
        }
    }
}

// The names that can come.
fn bounds_of(core: &Core) -> Bounds
    requires counted { site_among core.now.fresh ≡ Some core.now.variables.binder.site }
    ensures bounds { IsBoundOf result (site_of core.now) }
    ensures sites { result.sites ≡ core.now.sites }
{
    match core.fresh {
        Fresh::Counted {
            site,
            sites: _,
            vars,
            cells,
            procs,
            threads,
            ports,
        } => Bounds {
            sites: core.sites,
            site,
            vars,
            cells,
            procs,
            threads,
            ports,
        },
        Fresh::Given(_) => unreachable!(),
    }
}

/// Whether a message is fit for the site. It costs by the message's size.
pub fn is_fit(core: &Core, program: &Program, msg: &Msg) -> bool
    requires consistent { IsConsistent program.now core.now }
    ensures { IsTrue result ↔ IsFit program.now core.now.sites (site_of core.now) msg.now }
{
    if !wire_fits(msg) {
        return false;
    }
    if !can_take(core, msg) {
        return false;
    }
    let bounds = bounds_of(core);
    if !sites_fit(bounds.sites, bounds.site, msg) {
        return false;
    }
    if !names_fit(&bounds, msg) {
        return false;
    }
    if !codes_fit(program, msg) {
        return false;
    }
    core.variables.bundle_fits(bundle_of(msg))
}
