//! A site's data at the start of a program.

ghost use Rattle.std.specs.Prelude.{◌≡◌, ◌≤◌, IfOk};
ghost use Rattle.site_model.specs.Site.{initial_site};
ghost use Rattle.site_units.specs.Core.{site_of};
ghost use Rattle.site_units.specs.Invariant.{IsConsistent};
ghost use Rattle.site_core.specs.Start.{IsBare, first_living, first_order};

use kernel_syntax::Program;
use name_supply::Fresh;
use port_owner::Ports;
use site_cells::{Cells, Homes};
use site_units::Core;
use site_variables::Variables;
use std::alloc::{AllocError, Global};
use thread_machine::{Spare, Thread};
use thread_roster::Roster;
use tree_node::{CodeId, ThreadName};

// The threads at the start: site 1 has the program's thread.
fn first_threads(
    alloc: Global,
    number: u32,
    program: &Program,
) -> Result<Roster<Thread>, AllocError>
    ensures living { IfOk result (λ t. t.living ≡ first_living program.now number) }
    ensures ended { IfOk result (λ t. t.ended ≡ 0) }
    ensures order { IfOk result (λ t. t.order ≡ first_order number) }
{
    let mut threads = Roster::new(alloc);
    if number == 1 {
        program.is_program();
        let name = ThreadName { site: 1, num: 0 };
        let first = Thread::new(alloc, name, CodeId(0), &[], program)?;
        threads.start(name, first)?;
    }
    Ok(threads)
}

/// The data of a site that has no threads and made nothing. They take no memory.
pub fn bare_core(alloc: Global, number: u32, sites: u32) -> Core
    ensures { IsBare number sites result }
{
    Core {
        alloc,
        sites,
        variables: Variables::new(alloc, number),
        cells: Cells::new(alloc, number),
        ports: Ports::new(alloc),
        homes: Homes::new(alloc),
        threads: Roster::new(alloc),
        spare: Spare::new(alloc),
        fresh: Fresh::of(number, sites),
        steps: 0,
    }
}

/// The data of site `number` of so many, at the start of the program.
pub fn first_core(
    alloc: Global,
    number: u32,
    sites: u32,
    program: &Program,
) -> Result<Core, AllocError>
    requires some { 1 ≤ number }
    requires among { number ≤ sites }
    ensures state { IfOk result (λ c. site_of c ≡ initial_site program.now sites number) }
    ensures order { IfOk result (λ c. c.threads.order ≡ first_order number) }
    ensures consistent { IfOk result (λ c. IsConsistent program.now c) }
    ensures sites { IfOk result (λ c. c.sites ≡ sites) }
{
    program.is_program();
    let threads = first_threads(alloc, number, program)?;
    let mut core = bare_core(alloc, number, sites);
    core.threads = threads;
    Ok(core)
}
