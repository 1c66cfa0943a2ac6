//! The names of variables, cells, procedures, threads and ports.

ghost use Rattle.std.specs.Prelude.{◌↔◌, IsTrue};
ghost use Rattle.std.proofs.Common.{rules};
ghost use Rattle.std.specs.Cmp.{partial_order_from_own_ties};
ghost use Rattle.std.specs.Cmp.Rules.{comparing};
ghost use Rattle.std.specs.Ordering.{nat_cmp, on, then_cmp, as_partial_cmp};
ghost use Rattle.tree_node.specs.Order.{IsBelow};

use crate::seq::Seq;
use std::cmp::Ordering;

/// A variable's name: the site that made it (1 to 64) and its number there. Names compare by site, then number.
#[derive(Clone, Copy, Debug, PartialEq, Eq, PartialOrd, Ord, Hash)]
pub struct VarName {
    pub site: u32,
    pub num: u64,
}

/// A cell's name: the site that made it, its home, which is the site where its content is kept, and its number among the cells of its
/// maker. The home is 0 of a mobile cell, whose content goes to the sites that use it. Names compare by maker, then number, then
/// home.
// The sites stand together, so that a name takes 16 bytes.
#[derive(Clone, Copy, Debug, PartialEq, Eq, Hash)]
pub struct CellName {
    pub site: u32,
    pub at: u32,
    pub num: u64,
}

impl Ord for CellName {
    ghost cmp = { then_cmp (on (λ c. c.site) nat_cmp) (then_cmp (on (λ c. c.num) nat_cmp) (on (λ c. c.at) nat_cmp)) };

    ghost total = { Prim.search (comparing, rules) };

    ghost matches_partial_cmp = { Prim.search (comparing, rules) };

    ghost matches_eq = { Prim.search (comparing, rules) };

    fn cmp(&self, other: &CellName) -> Ordering {
        let by_number = self.num.cmp(&other.num).then(self.at.cmp(&other.at));
        self.site.cmp(&other.site).then(by_number)
    }
}

impl PartialOrd for CellName {
    ghost partial_cmp = { as_partial_cmp (then_cmp (on (λ c. c.site) nat_cmp) (then_cmp (on (λ c. c.num) nat_cmp) (on (λ c. c.at) nat_cmp))) };

    ghost laws = { partial_order_from_own_ties (Prim.search (comparing, rules)) (Prim.search (comparing, rules)) };

    fn partial_cmp(&self, other: &CellName) -> Option<Ordering> {
        Some(self.cmp(other))
    }
}

/// A procedure's name: the site that made it and its number there.
#[derive(Clone, Copy, Debug, PartialEq, Eq, PartialOrd, Ord, Hash)]
pub struct ProcName {
    pub site: u32,
    pub num: u64,
}

/// A thread's name: the site that made it and its number there. The first thread of a program is number 0 of site 1.
#[derive(Clone, Copy, Debug, PartialEq, Eq, PartialOrd, Ord, Hash)]
pub struct ThreadName {
    pub site: u32,
    pub num: u64,
}

/// A port's name: the site that made it, which owns it, and its number there.
#[derive(Clone, Copy, Debug, PartialEq, Eq, PartialOrd, Ord, Hash)]
pub struct PortName {
    pub site: u32,
    pub num: u64,
}

/// A name of any kind. Each kind is numbered for itself.
#[derive(Clone, Copy, Debug, PartialEq, Eq, PartialOrd, Ord, Hash)]
pub enum Name {
    Var(VarName),
    Cell(CellName),
    Proc(ProcName),
    Thread(ThreadName),
    Port(PortName),
}

/// What a name is wanted for. `CellAt` is a cell that is stationary at the site of this number, from 1 on, which goes round the
/// sites; mobile and stationary cells are numbered together.
#[derive(Clone, Copy, Debug, PartialEq, Eq, PartialOrd, Ord, Hash)]
pub enum NameKind {
    Var,
    Cell,
    CellAt(i128),
    Proc,
    Thread,
    Port,
}

/// The number of a statement in the table of its program. Number 0 is the whole program.
#[derive(Clone, Copy, Debug, PartialEq, Eq, PartialOrd, Ord, Hash)]
pub struct CodeId(pub u32);

/// Names in the order in which a step takes them. The empty list, which most steps have, takes no memory.
pub type NameList = Seq<Name>;

/// Variables in order, which one owner holds.
pub type VarList = Seq<VarName>;

/// Whether a variable's name is below another: by site, then by number.
pub fn is_below(lesser: VarName, greater: VarName) -> bool
    ensures { IsTrue result ↔ IsBelow lesser greater }
{
    lesser < greater
}
