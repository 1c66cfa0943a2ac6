//! Whether the names and sites in a message fit.

ghost use Rattle.std.specs.Prelude.{◌≡◌, ◌↔◌, ◌<◌, ◌≤◌, IsTrue};
ghost use Rattle.tree_node.specs.declared.names.Name.TheVariants as names;
ghost use Rattle.tree_node.specs.Each.{Each};
ghost use Rattle.tree_node.specs.Names.{EachOfNode, EachOfTerm, EachOfEquation};
ghost use Rattle.site_message.specs.Wire.{IsRequestOrAnswer};
ghost use Rattle.site_model.specs.Site.{Site as TheSite};
ghost use Rattle.site_model.specs.Fit.{EachOfMsg, SitesOfMsg, IsKnownName, IsOtherSite};
ghost use Rattle.site_variables.specs.Fit.{IsBoundOf, IsWithin, IsVarWithin, IsFieldWithin};

use site_message::Msg;
use tree_node::{CellName, Feature, Name, Node, Term, ThreadName, VarName};

/// Which names can come to a site: those of sites 1 to `sites`, and of the site's own those that it made, whose numbers are
/// below these counters.
#[derive(Clone, Copy, Debug, PartialEq, Eq)]
pub struct Bounds {
    /// How many sites the program runs on.
    pub sites: u32,
    /// The site itself.
    pub site: u32,
    /// How many variables it made.
    pub vars: u64,
    /// How many cells.
    pub cells: u64,
    /// How many procedures.
    pub procs: u64,
    /// How many threads.
    pub threads: u64,
    /// How many ports.
    pub ports: u64,
}

// Whether a name is one of the sites', and was made where it is the site's own.
fn name_fits(bounds: &Bounds, name: Name) -> bool
    ensures { IsTrue result ↔ IsWithin bounds.now name }
{
    match name {
        Name::Var(x) => is_within(bounds, x.site, 0, x.num, bounds.vars),
        Name::Cell(x) => is_within(bounds, x.site, x.at, x.num, bounds.cells),
        Name::Proc(x) => is_within(bounds, x.site, 0, x.num, bounds.procs),
        Name::Thread(x) => is_within(bounds, x.site, 0, x.num, bounds.threads),
        Name::Port(x) => is_within(bounds, x.site, 0, x.num, bounds.ports),
    }
}

// Whether a site is one of them, a home is one of them or none, and a number is below the counter where it is the site itself.
fn is_within(bounds: &Bounds, site: u32, home: u32, num: u64, counter: u64) -> bool
    ensures { IsTrue result ↔ (1 ≤ site) × (site ≤ bounds.now.sites) × (home ≤ bounds.now.sites) × (site ≡ bounds.now.site → num < counter) }
{
    1 <= site
        && site <= bounds.sites
        && home <= bounds.sites
        && (site != bounds.site || num < counter)
}

// Whether each of these variables is within the bounds.
#[tactic(auto, using(site_message::proofs::EachLemmas::each_step, site_message::proofs::EachLemmas::each_stop, site_message::proofs::EachLemmas::each_end))]
fn vars_within(bounds: &Bounds, vars: &[VarName]) -> bool
    ensures { IsTrue result ↔ Each (IsVarWithin bounds.now) vars.now }
{
    for var in vars {
        if !name_fits(bounds, Name::Var(*var)) {
            return false;
        }
    }
    true
}

// Whether the variable of a field is within the bounds.
fn field_within(bounds: &Bounds, field: &(Feature, VarName)) -> bool
    ensures { IsTrue result ↔ IsFieldWithin bounds.now field.now }
{
    name_fits(bounds, Name::Var(field.1))
}

// Whether the variable of each field is within the bounds.
#[tactic(auto, using(site_message::proofs::EachLemmas::each_step, site_message::proofs::EachLemmas::each_stop, site_message::proofs::EachLemmas::each_end))]
fn fields_within(bounds: &Bounds, fields: &[(Feature, VarName)]) -> bool
    ensures { IsTrue result ↔ Each (IsFieldWithin bounds.now) fields.now }
{
    for field in fields {
        if !field_within(bounds, field) {
            return false;
        }
    }
    true
}

// Whether each name in a node is within the bounds.
fn node_within(bounds: &Bounds, node: &Node) -> bool
    ensures { IsTrue result ↔ EachOfNode (IsWithin bounds.now) node.now }
{
    match node {
        Node::Rec(_, fields) => fields_within(bounds, fields.as_slice()),
        Node::Proc(_, _, proc, vars) => {
            name_fits(bounds, Name::Proc(*proc)) && vars_within(bounds, vars.as_slice())
        }
        Node::Cell(cell) => name_fits(bounds, Name::Cell(*cell)),
        Node::Port(port) => name_fits(bounds, Name::Port(*port)),
        _ => true,
    }
}

// Whether each name in a term is within the bounds.
fn term_within(bounds: &Bounds, term: &Term) -> bool
    ensures { IsTrue result ↔ EachOfTerm (IsWithin bounds.now) term.now }
{
    match term {
        Term::Var(var) => name_fits(bounds, Name::Var(*var)),
        Term::Node(node) => node_within(bounds, node),
    }
}

// Whether each name in an equation is within the bounds.
fn equation_within(bounds: &Bounds, equation: &(VarName, Term)) -> bool
    ensures { IsTrue result ↔ EachOfEquation (IsWithin bounds.now) equation.now }
{
    name_fits(bounds, Name::Var(equation.0)) && term_within(bounds, &equation.1)
}

// Whether each name in equations is within the bounds.
#[tactic(auto, using(site_message::proofs::EachLemmas::each_step, site_message::proofs::EachLemmas::each_stop, site_message::proofs::EachLemmas::each_end))]
fn equations_within(bounds: &Bounds, equations: &[(VarName, Term)]) -> bool
    ensures { IsTrue result ↔ Each (EachOfEquation (IsWithin bounds.now)) equations.now }
{
    for equation in equations {
        if !equation_within(bounds, equation) {
            return false;
        }
    }
    true
}

// Whether the names of a cell and of its content, and those in a bundle, are within the bounds.
fn content_within(
    bounds: &Bounds,
    cell: CellName,
    content: VarName,
    bundle: &[(VarName, Term)],
) -> bool
    ensures { IsTrue result ↔ (IsWithin bounds.now (names.Cell cell) × IsVarWithin bounds.now content × Each (EachOfEquation (IsWithin bounds.now)) bundle.now) }
{
    name_fits(bounds, Name::Cell(cell))
        && name_fits(bounds, Name::Var(content))
        && equations_within(bounds, bundle)
}

// Whether the names of a thread and of what it is told, and those in a bundle, are within the bounds.
fn told_within(
    bounds: &Bounds,
    thread: ThreadName,
    content: VarName,
    bundle: &[(VarName, Term)],
) -> bool
    ensures { IsTrue result ↔ (IsWithin bounds.now (names.Thread thread) × IsVarWithin bounds.now content × Each (EachOfEquation (IsWithin bounds.now)) bundle.now) }
{
    name_fits(bounds, Name::Thread(thread))
        && name_fits(bounds, Name::Var(content))
        && equations_within(bounds, bundle)
}

// Whether each name in a request of a thread that waits for its answer, or in an answer, is within the bounds.
fn request_or_answer_within(bounds: &Bounds, msg: &Msg) -> bool
    requires { IsRequestOrAnswer msg.now }
    ensures { IsTrue result ↔ EachOfMsg (IsWithin bounds.now) msg.now }
{
    match msg {
        Msg::PortSend { port, thread, .. } => {
            name_fits(bounds, Name::Port(*port)) && name_fits(bounds, Name::Thread(*thread))
        }
        Msg::PortEnd {
            thread,
            old,
            new,
            bundle,
        } => {
            name_fits(bounds, Name::Thread(*thread))
                && name_fits(bounds, Name::Var(*old))
                && name_fits(bounds, Name::Var(*new))
                && equations_within(bounds, bundle.as_slice())
        }
        Msg::CellMake {
            cell,
            content,
            bundle,
        } => content_within(bounds, *cell, *content, bundle.as_slice()),
        Msg::CellAsk {
            cell,
            thread,
            new,
            bundle,
            ..
        } => {
            name_fits(bounds, Name::Cell(*cell))
                && name_fits(bounds, Name::Thread(*thread))
                && name_fits(bounds, Name::Var(*new))
                && equations_within(bounds, bundle.as_slice())
        }
        Msg::CellOld {
            thread,
            content,
            bundle,
        } => told_within(bounds, *thread, *content, bundle.as_slice()),
        _ => unreachable!(),
    }
}

// Whether each name in a message is within the bounds.
fn message_within(bounds: &Bounds, msg: &Msg) -> bool
    ensures { IsTrue result ↔ EachOfMsg (IsWithin bounds.now) msg.now }
{
    match msg {
        Msg::Spawn {
            thread,
            vars,
            bundle,
            ..
        } => {
            name_fits(bounds, Name::Thread(*thread))
                && vars_within(bounds, vars.as_slice())
                && equations_within(bounds, bundle.as_slice())
        }
        Msg::Register { var, .. } => name_fits(bounds, Name::Var(*var)),
        Msg::BindReq {
            var,
            thread,
            term,
            bundle,
        } => {
            name_fits(bounds, Name::Var(*var))
                && name_fits(bounds, Name::Thread(*thread))
                && term_within(bounds, term)
                && equations_within(bounds, bundle.as_slice())
        }
        Msg::Binding { var, term, bundle } => {
            name_fits(bounds, Name::Var(*var))
                && term_within(bounds, term)
                && equations_within(bounds, bundle.as_slice())
        }
        Msg::Get { cell, .. } => name_fits(bounds, Name::Cell(*cell)),
        Msg::Forward { cell, .. } => name_fits(bounds, Name::Cell(*cell)),
        Msg::Put {
            cell,
            content,
            bundle,
        } => content_within(bounds, *cell, *content, bundle.as_slice()),
        _ => request_or_answer_within(bounds, msg),
    }
}

/// Whether each name in a message, of whatever kind, is one of the sites', and was made where it is the site's own.
pub fn names_fit(bounds: &Bounds, msg: &Msg) -> bool
    ensures { (s : TheSite) → IsBoundOf bounds.now s → IsTrue result ↔ EachOfMsg (IsKnownName bounds.now.sites s) msg.now }
{
    message_within(bounds, msg)
}

/// Whether the site that a message names as asking or next is another one of the sites.
pub fn sites_fit(sites: u32, site: u32, msg: &Msg) -> bool
    ensures { (s : TheSite) → s.records.site ≡ site → IsTrue result ↔ SitesOfMsg (IsOtherSite sites s) msg.now }
{
    match msg {
        Msg::Register { asking, .. } => is_other(sites, site, *asking),
        Msg::Get { asking, .. } => is_other(sites, site, *asking),
        Msg::Forward { next, .. } => is_other(sites, site, *next),
        Msg::PortSend { asking, .. } => is_other(sites, site, *asking),
        Msg::CellAsk { asking, .. } => is_other(sites, site, *asking),
        _ => true,
    }
}

// Whether a site is another one of the sites.
fn is_other(sites: u32, site: u32, other: u32) -> bool
    ensures { (s : TheSite) → s.records.site ≡ site → IsTrue result ↔ IsOtherSite sites s other }
{
    1 <= other && other <= sites && other != site
}
