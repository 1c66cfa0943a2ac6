//! How threads stand.

ghost use Rattle.std.specs.Prelude.{◌≡◌};
ghost use Rattle.std.specs.List.{list_any};
ghost use Rattle.tree_node.specs.Store.{equal_var};
ghost use Rattle.thread_roster.specs.Threads.{awaits, needs_one, is_waiting};
ghost use Rattle.thread_roster.specs.Slots.{wakes, var_of};

use tree_node::{CellName, PortName, VarList, VarName};

/// What a thread waits for that is no variable: a cell, which is its token or, where it is stationary, its content; or the end of a port.
#[derive(Clone, Copy, Debug, PartialEq, Eq)]
pub enum Awaited {
    Cell(CellName),
    Port(PortName),
}

/// Whether a thread can go on, or waits until a variable is bound, or until its class has a node, or until any of several
/// variables is bound, or for a cell or a port.
#[derive(Drop)]
pub enum Mode {
    Runs,
    Waits(VarName),
    Needs(VarName),
    WaitsAny(VarList),
    WaitsFor(Awaited),
}

/// What threads wait for in a variable: that it is bound, to a node or to another variable, or that its class has a node.
#[derive(Clone, Copy)]
pub enum Event {
    Bound(VarName),
    Determined(VarName),
}

impl Event {
    /// The variable.
    pub fn var(self) -> VarName
        ensures { result ≡ var_of self }
    {
        match self {
            Event::Bound(var) => var,
            Event::Determined(var) => var,
        }
    }
}

// Whether a variable is one of these.
fn is_among(vars: &[VarName], var: VarName) -> bool
    ensures { result ≡ list_any (λ y. equal_var y var) vars.now }
{
    vars.iter().any(|needed| *needed == var)
}

impl Mode {
    /// Whether a thread that stands so waits.
    pub fn is_waiting(&self) -> bool
        ensures { result ≡ is_waiting self.now }
    {
        match self {
            Mode::Runs => false,
            Mode::Waits(_) => true,
            Mode::Needs(_) => true,
            Mode::WaitsAny(_) => true,
            Mode::WaitsFor(_) => true,
        }
    }

    // Whether a thread that stands so goes on once this variable is bound.
    fn awaits_bind(&self, var: VarName) -> bool
        ensures { result ≡ awaits var self.now }
    {
        match self {
            Mode::Runs => false,
            Mode::Waits(awaited) => *awaited == var,
            Mode::Needs(_) => false,
            Mode::WaitsAny(vars) => is_among(vars.as_slice(), var),
            Mode::WaitsFor(_) => false,
        }
    }

    // Whether a thread that stands so goes on once the class of this variable has a node.
    fn awaits_node(&self, var: VarName) -> bool
        ensures { result ≡ needs_one (λ y. equal_var y var) self.now }
    {
        match self {
            Mode::Runs => false,
            Mode::Waits(_) => false,
            Mode::Needs(needed) => *needed == var,
            Mode::WaitsAny(_) => false,
            Mode::WaitsFor(_) => false,
        }
    }

    /// Whether a thread that stands so goes on by this.
    pub fn awaits(&self, event: Event) -> bool
        ensures { result ≡ wakes event self.now }
    {
        match event {
            Event::Bound(var) => self.awaits_bind(var),
            Event::Determined(var) => self.awaits_node(var),
        }
    }
}
