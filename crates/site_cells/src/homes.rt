//! The stationary cells that are at home at a site.

ghost use Rattle.std.specs.Prelude.{◌≡◌, ◌↔◌, [], ◌∷◌, ◌++◌, None, Some, OnOk, OnErr, IfOk, IsTrue, IsSome};
ghost use Rattle.site_cells.specs.Homes.{home_in, with_home};

use crate::home::Home;
use indexmap::IndexMap;
use std::alloc::{AllocError, Global};
use std::marker::Model;
use token_chain::EarlyRequest;
use tree_node::{CellName, VarName};

// What the home keeps of each cell.
type Records = IndexMap<CellName, Home>;

/// What one site keeps of the stationary cells that are at home there: the content of each, and the requests that came before the site
/// heard of it. Contracts see it as a table. Each call costs by a look-up, and changes nothing where memory runs out.
#[derive(Drop)]
pub struct Homes {
    records: Records,
}

impl Model for Homes {
    ghost use Rattle.site_cells.specs.Homes.{HomeTable};

    ghost Value = { HomeTable };

    ghost view = { λ h. h.records.entries };
}

// Whether the home heard of the cell.
fn is_here(records: &Records, cell: CellName) -> bool
    ensures { IsTrue result ↔ IsSome (home_in records.now.entries cell).content }
{
    match records.get(&cell) {
        Some(home) => home.is_here(),
        None => false,
    }
}

// A thread exchanges the content.
fn exchange(records: &mut Records, cell: CellName, new: VarName) -> VarName
    requires { IsSome (home_in records.old.entries cell).content }
    ensures old { (home_in records.old.entries cell).content ≡ Some result }
    ensures new { records.new.entries ≡ with_home cell (record (home_in records.old.entries cell) { content = Some new }) records.old.entries }
{
    match records.get_mut(&cell) {
        Some(home) => home.exchange(new),
        None => unreachable!(),
    }
}

// A request comes early.
fn keep(records: &mut Records, cell: CellName, request: EarlyRequest) -> Result<(), AllocError>
    ensures ok { OnOk result (records.new.entries ≡ with_home cell (record (home_in records.old.entries cell) { early = (home_in records.old.entries cell).early ++ request ∷ [] }) records.old.entries) }
    ensures err { OnErr result (records.new.entries ≡ records.old.entries) }
{
    if let Some(home) = records.get_mut(&cell) {
        return home.keep(request);
    }
    let mut home = Home::unheard(*records.allocator());
    home.keep(request)?;
    records.insert(cell, home)?;
    Ok(())
}

// The home hears of the cell.
fn hear(
    records: &mut Records,
    cell: CellName,
    content: VarName,
) -> Result<Vec<EarlyRequest>, AllocError>
    requires { (home_in records.old.entries cell).content ≡ None }
    ensures early { IfOk result (λ early. early.items ≡ (home_in records.old.entries cell).early) }
    ensures new { OnOk result (records.new.entries ≡ with_home cell (record { content = Some content; early = [] }) records.old.entries) }
    ensures err { OnErr result (records.new.entries ≡ records.old.entries) }
{
    let alloc = *records.allocator();
    if let Some(home) = records.get_mut(&cell) {
        return Ok(home.hear(alloc, content));
    }
    records.insert(cell, Home::new_here(alloc, content))?;
    Ok(Vec::new(alloc))
}

impl Homes {
    /// No cells. It takes no memory.
    pub fn new(alloc: Global) -> Homes
        ensures { result ≡ [] }
    {
        Homes {
            records: IndexMap::new(alloc),
        }
    }

    /// A thread of the site makes a cell with this content, at home here.
    pub fn make(&mut self, cell: CellName, content: VarName) -> Result<(), AllocError>
        ensures ok { OnOk result (self.new ≡ with_home cell (record { content = Some content; early = [] }) self.old) }
        ensures err { OnErr result (self.new ≡ self.old) }
    {
        let home = Home::new_here(*self.records.allocator(), content);
        self.records.insert(cell, home)?;
        Ok(())
    }

    /// Whether the site heard of the cell, so that its content is here.
    pub fn is_here(&self, cell: CellName) -> bool
        ensures { IsTrue result ↔ IsSome (home_in self.now cell).content }
    {
        is_here(&self.records, cell)
    }

    /// A thread exchanges the content of a cell that is here, and is given the old content.
    pub fn exchange(&mut self, cell: CellName, new: VarName) -> VarName
        requires here { IsSome (home_in self.old cell).content }
        ensures old { (home_in self.old cell).content ≡ Some result }
        ensures new { self.new ≡ with_home cell (record (home_in self.old cell) { content = Some new }) self.old }
    {
        exchange(&mut self.records, cell, new)
    }

    /// A request comes before the site heard of the cell: it is kept behind the others.
    pub fn keep(&mut self, cell: CellName, request: EarlyRequest) -> Result<(), AllocError>
        ensures ok { OnOk result (self.new ≡ with_home cell (record (home_in self.old cell) { early = (home_in self.old cell).early ++ request ∷ [] }) self.old) }
        ensures err { OnErr result (self.new ≡ self.old) }
    {
        keep(&mut self.records, cell, request)
    }

    /// The site hears of the cell. The requests that came before are handed out; each is to exchange the content, in this order, by
    /// `exchange`.
    pub fn hear(
        &mut self,
        cell: CellName,
        content: VarName,
    ) -> Result<Vec<EarlyRequest>, AllocError>
        requires unheard { (home_in self.old cell).content ≡ None }
        ensures early { IfOk result (λ early. early.items ≡ (home_in self.old cell).early) }
        ensures new { OnOk result (self.new ≡ with_home cell (record { content = Some content; early = [] }) self.old) }
        ensures err { OnErr result (self.new ≡ self.old) }
    {
        hear(&mut self.records, cell, content)
    }
}
