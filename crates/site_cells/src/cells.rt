//! What a site keeps of cells.

ghost use Rattle.std.specs.Prelude.{◌≡◌, ◌↔◌, [], ◌∷◌, ◌++◌, List, OnOk, OnErr, IsTrue};
ghost use Rattle.tree_node.specs.declared.names.VarName.{VarName};
ghost use Rattle.tree_node.specs.State.{Stack};
ghost use Rattle.kernel_syntax.specs.declared.stmt.Stmt.{Stmt};
ghost use Rattle.site_message.specs.declared.message.Msg.TheVariants as msg;
ghost use Rattle.token_chain.specs.declared.token.Token.TheVariants.{Asked, Here};
ghost use Rattle.oz_model.specs.Effect.{Made, Exchanged};
ghost use Rattle.site_model.specs.Site.{Site, unused_cell};
ghost use Rattle.site_model.specs.Transition.{without_output};
ghost use Rattle.site_model.specs.Unit.{after_cell};
ghost use Rattle.site_model.specs.Cells.{forward_row, get_row, leave_row, request_row, serving, with_exchange_waiting};
ghost use Rattle.site_cells.specs.Tables.{HasToken, IsReceivable, CanPassOn, last_asker_in, AreTablesOf, IsChange, IsRow, ChangesQueue, KeepsQueues, record_of, queue_of, with_tables, same_site};

use crate::place::Place;
use crate::tables::{self, Managers, Records};
use indexmap::IndexMap;
use site_message::{Msg, Outbox, Sent};
use std::alloc::{AllocError, Global};
use std::marker::Model;
use tree_node::{CellName, Seq, ThreadName, VarName};

/// What one site keeps of cells: of those made here the last asker, of those used here the token and the threads that wait
/// for it. Each call costs by a look-up and by what it sends, and changes nothing where memory runs out.
#[derive(Drop)]
pub struct Cells {
    alloc: Global,
    site: u32,
    managers: Managers,
    records: Records,
}

impl Model for Cells {
    ghost use Rattle.site_cells.specs.Tables.{CellTables};

    ghost Value = { CellTables };

    ghost view = { λ c. record { site = c.site; managers = c.managers.entries; cell_records = c.records.entries } };
}

impl Cells {
    /// The cells of a new site, 1 to the number of sites. It takes no memory.
    pub fn new(alloc: Global, site: u32) -> Cells
        ensures { result ≡ record { site = site; managers = []; cell_records = [] } }
    {
        Cells {
            alloc,
            site,
            managers: IndexMap::new(alloc),
            records: IndexMap::new(alloc),
        }
    }

    /// A thread makes a cell with this content: the token is here, and this site asked last.
    pub fn make(&mut self, cell: CellName, content: VarName) -> Result<(), AllocError>
        ensures ok { OnOk result (IsChange (after_cell (Made cell content)) self.old self.new) }
        ensures queues { OnOk result (ChangesQueue self.old self.new cell []) }
        ensures err { OnErr result (self.new ≡ self.old) }
    {
        self.managers.reserve(1)?;
        self.records.reserve(1)?;
        self.managers.insert(cell, self.site)?;
        self.records
            .insert(cell, Place::new_here(self.alloc, content))?;
        Ok(())
    }

    /// Whether the cell's token is here.
    pub fn is_here(&self, cell: CellName) -> bool
        ensures { IsTrue result ↔ HasToken self.now cell }
    {
        tables::is_here(&self.records, cell)
    }

    /// A thread exchanges the content of a cell whose token is here, and is given the old content.
    pub fn exchange(&mut self, cell: CellName, new: VarName) -> VarName
        requires here { HasToken self.old cell }
        ensures old { (record_of self.old cell).held.token ≡ Here result }
        ensures new { (record_of self.new cell).held.token ≡ Here new }
        ensures change { (told : VarName) → IsChange (after_cell (Exchanged cell new told)) self.old self.new }
        ensures queues { KeepsQueues self.old self.new }
    {
        tables::exchange(&mut self.records, cell, new)
    }

    /// A thread wants to exchange the content of a cell whose token is not here. It waits behind the others; the first asks
    /// for the token. Behind 2^59 others, which is more than memory holds, it finds no memory.
    pub fn request(
        &mut self,
        cell: CellName,
        thread: ThreadName,
        outbox: &mut Outbox,
    ) -> Result<(), AllocError>
        requires elsewhere { HasToken self.old cell → ⊥ }
        ensures row { OnOk result ((new : VarName) (st : Stack) → IsRow (request_row 0 cell new thread st) (with_exchange_waiting cell thread st) self.old self.new outbox.old outbox.new) }
        ensures queues { OnOk result (ChangesQueue self.old self.new cell (queue_of self.old cell ++ thread ∷ [])) }
        ensures same { OnErr result (self.new ≡ self.old) }
        ensures unsent { OnErr result (outbox.new ≡ outbox.old) }
    {
        if tables::is_asked(&self.records, cell) {
            return tables::wait(&mut self.records, cell, thread);
        }
        self.first_request(cell, thread, outbox)
    }

    /// A message Get has come: the site that asked last is told that the asking one comes next, which now asked last.
    pub fn get(
        &mut self,
        cell: CellName,
        asking: u32,
        outbox: &mut Outbox,
    ) -> Result<(), AllocError>
        requires takes { IsReceivable self.old (msg.Get cell asking) }
        ensures row { OnOk result (IsRow (get_row 0 cell asking) same_site self.old self.new outbox.old outbox.new) }
        ensures queues { OnOk result (KeepsQueues self.old self.new) }
        ensures same { OnErr result (self.new ≡ self.old) }
        ensures unsent { OnErr result (outbox.new ≡ outbox.old) }
    {
        self.managers.reserve(1)?;
        let last = tables::last_asker(&self.managers, cell);
        tables::hand_on(&mut self.records, self.site, cell, last, asking, outbox)?;
        self.managers.insert(cell, asking)?;
        Ok(())
    }

    /// A message Forward has come: the next site is the successor, and the token goes there if it is here and nobody waits.
    pub fn forward(
        &mut self,
        cell: CellName,
        next: u32,
        outbox: &mut Outbox,
    ) -> Result<(), AllocError>
        requires takes { IsReceivable self.old (msg.Forward cell next) }
        ensures row { OnOk result (IsRow (forward_row 0 cell next) same_site self.old self.new outbox.old outbox.new) }
        ensures queues { OnOk result (KeepsQueues self.old self.new) }
        ensures same { OnErr result (self.new ≡ self.old) }
        ensures unsent { OnErr result (outbox.new ≡ outbox.old) }
    {
        tables::follow(&mut self.records, cell, next, outbox)
    }

    /// A message Put has come: the token is here with its content. All that waited are handed out; then each is to exchange
    /// the content, in this order, by `exchange`, and then `leave` is called.
    pub fn arrive(&mut self, cell: CellName, content: VarName) -> Seq<ThreadName>
        requires asked { (record_of self.old cell).held.token ≡ Asked }
        ensures queue { result ≡ queue_of self.old cell }
        ensures queues { ChangesQueue self.old self.new cell [] }
        ensures here { (record_of self.new cell).held.token ≡ Here content }
        ensures site { self.new.site ≡ self.old.site }
        ensures serving { (p : List Stmt) (s : Site) → AreTablesOf s self.old → serving p cell [] content s ≡ without_output (with_tables self.new s) }
    {
        tables::arrive(&mut self.records, self.alloc, cell, content)
    }

    /// The token goes to the successor, where one is known and nobody waits.
    pub fn leave(&mut self, cell: CellName, outbox: &mut Outbox) -> Result<(), AllocError>
        requires here { HasToken self.old cell }
        ensures row { OnOk result (IsRow (leave_row 0 cell) same_site self.old self.new outbox.old outbox.new) }
        ensures queues { OnOk result (KeepsQueues self.old self.new) }
        ensures same { OnErr result (self.new ≡ self.old) }
        ensures unsent { OnErr result (outbox.new ≡ outbox.old) }
    {
        tables::leave(&mut self.records, cell, outbox)
    }

    // The first thread that waits asks for the token.
    fn first_request(
        &mut self,
        cell: CellName,
        thread: ThreadName,
        outbox: &mut Outbox,
    ) -> Result<(), AllocError>
        requires unused { record_of self.old cell ≡ unused_cell }
        ensures row { OnOk result ((new : VarName) (st : Stack) → IsRow (request_row 0 cell new thread st) (with_exchange_waiting cell thread st) self.old self.new outbox.old outbox.new) }
        ensures queues { OnOk result (ChangesQueue self.old self.new cell (queue_of self.old cell ++ thread ∷ [])) }
        ensures same { OnErr result (self.new ≡ self.old) }
        ensures unsent { OnErr result (outbox.new ≡ outbox.old) }
    {
        let mut place = Place::unused(self.alloc);
        place.wait(thread)?;
        self.records.reserve(1)?;
        self.managers.reserve(1)?;
        if cell.site != self.site {
            let msg = Msg::Get {
                cell,
                asking: self.site,
            };
            outbox.push(Sent { to: cell.site, msg })?;
            self.records.insert(cell, place)?;
            return Ok(());
        }
        let last = tables::last_asker(&self.managers, cell);
        place.hand_on(cell, self.site, last, self.site, outbox)?;
        self.managers.insert(cell, self.site)?;
        self.records.insert(cell, place)?;
        Ok(())
    }

    // Whether the site that asked last can be told its successor.
    fn can_pass_on(&self, cell: CellName) -> bool
        ensures { IsTrue result ↔ CanPassOn self.now cell (last_asker_in self.now cell) }
    {
        match self.managers.get(&cell) {
            Some(last) => *last != self.site || tables::can_follow(&self.records, cell),
            None => false,
        }
    }

    /// Whether the site can take a message of cells. It can take every other message.
    pub fn takes(&self, msg: &Msg) -> bool
        ensures { IsTrue result ↔ IsReceivable self.now msg.now }
    {
        match msg {
            Msg::Get { cell, .. } => cell.site == self.site && self.can_pass_on(*cell),
            Msg::Forward { cell, .. } => tables::can_follow(&self.records, *cell),
            Msg::Put { cell, .. } => tables::is_asked(&self.records, *cell),
            _ => true,
        }
    }
}
