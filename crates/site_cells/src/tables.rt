//! The two tables of cells at a site.

ghost use Rattle.std.specs.Prelude.{◌≡◌, ◌↔◌, ◌∷◌, [], ◌++◌, map, OnOk, OnErr, IsTrue, unwrap_or};
ghost use Rattle.std.specs.Map.{lookup};
ghost use Rattle.tree_node.specs.Goal.{equal_cell};
ghost use Rattle.token_chain.specs.declared.token.Token.TheVariants.{Away, Asked, Here};
ghost use Rattle.token_chain.specs.Holding.{IsHere, CanFollow, with_waiter};
ghost use Rattle.token_chain.specs.Mail.{sent_as};
ghost use Rattle.token_chain.specs.Rows.{leave_reply, forward_reply, get_reply};
ghost use Rattle.site_model.specs.Site.{cell_record_in, unused_cell};
ghost use Rattle.site_cells.specs.Tables.{with_record, record_after};

use crate::place::{Place, Queue};
use indexmap::IndexMap;
use site_message::Outbox;
use std::alloc::{AllocError, Global};
use tree_node::{CellName, ThreadName, VarName};

/// The last asker of each cell made here.
pub type Managers = IndexMap<CellName, u32>;

/// What is kept of each cell used here.
pub type Records = IndexMap<CellName, Place>;

// ---- look-ups

/// The site that asked last for a cell. Of one that nobody asked for it is the cell's own.
pub fn last_asker(managers: &Managers, cell: CellName) -> u32
    ensures { result ≡ unwrap_or (lookup (equal_cell cell) managers.now.entries) cell.site }
{
    match managers.get(&cell) {
        Some(last) => *last,
        None => cell.site,
    }
}

/// Whether the token is here.
pub fn is_here(records: &Records, cell: CellName) -> bool
    ensures { IsTrue result ↔ IsHere (cell_record_in records.now.entries cell).held.token }
{
    match records.get(&cell) {
        Some(place) => place.is_here(),
        None => false,
    }
}

/// Whether the token was asked for.
pub fn is_asked(records: &Records, cell: CellName) -> bool
    ensures asked { IsTrue result ↔ ((cell_record_in records.now.entries cell).held.token ≡ Asked) }
    ensures unused { (cell_record_in records.now.entries cell).held.token ≡ Away → cell_record_in records.now.entries cell ≡ unused_cell }
{
    match records.get(&cell) {
        Some(place) => place.is_asked(),
        None => false,
    }
}

/// Whether the site can be told its successor.
pub fn can_follow(records: &Records, cell: CellName) -> bool
    ensures { IsTrue result ↔ CanFollow (cell_record_in records.now.entries cell).held }
{
    match records.get(&cell) {
        Some(place) => place.can_follow(),
        None => false,
    }
}

// ---- changes

/// A thread exchanges the content of the token.
pub fn exchange(records: &mut Records, cell: CellName, new: VarName) -> VarName
    requires { IsHere (cell_record_in records.old.entries cell).held.token }
    ensures old { (cell_record_in records.old.entries cell).held.token ≡ Here result }
    ensures new { records.new.entries ≡ with_record cell (record (cell_record_in records.old.entries cell) { held = record (cell_record_in records.old.entries cell).held { token = Here new } }) records.old.entries }
{
    match records.get_mut(&cell) {
        Some(place) => place.exchange(new),
        None => unreachable!(),
    }
}

/// A thread waits behind the others for a token that was asked for.
pub fn wait(records: &mut Records, cell: CellName, thread: ThreadName) -> Result<(), AllocError>
    requires { (cell_record_in records.old.entries cell).held.token ≡ Asked }
    ensures ok { OnOk result (records.new.entries ≡ with_record cell (record { held = with_waiter (cell_record_in records.old.entries cell).held; queue = (cell_record_in records.old.entries cell).queue ++ thread ∷ [] }) records.old.entries) }
    ensures err { OnErr result (records.new.entries ≡ records.old.entries) }
{
    match records.get_mut(&cell) {
        Some(place) => place.wait(thread),
        None => unreachable!(),
    }
}

/// The token comes, and all that waited for it are handed out.
pub fn arrive(records: &mut Records, alloc: Global, cell: CellName, content: VarName) -> Queue
    requires { (cell_record_in records.old.entries cell).held.token ≡ Asked }
    ensures queue { result ≡ (cell_record_in records.old.entries cell).queue }
    ensures new { records.new.entries ≡ with_record cell (record { held = record (cell_record_in records.old.entries cell).held { token = Here content; waiting = 0 }; queue = [] }) records.old.entries }
{
    match records.get_mut(&cell) {
        Some(place) => place.arrive(alloc, content),
        None => unreachable!(),
    }
}

/// The site is told its successor, and the token goes there where it may.
pub fn follow(
    records: &mut Records,
    cell: CellName,
    next: u32,
    outbox: &mut Outbox,
) -> Result<(), AllocError>
    requires { CanFollow (cell_record_in records.old.entries cell).held }
    ensures records { OnOk result (records.new.entries ≡ with_record cell (record_after (cell_record_in records.old.entries cell).queue (forward_reply (cell_record_in records.old.entries cell).held next)) records.old.entries) }
    ensures sent { OnOk result (outbox.new ≡ outbox.old ++ map (sent_as cell) (forward_reply (cell_record_in records.old.entries cell).held next).sent) }
    ensures same { OnErr result (records.new.entries ≡ records.old.entries) }
    ensures unsent { OnErr result (outbox.new ≡ outbox.old) }
{
    match records.get_mut(&cell) {
        Some(place) => place.follow(cell, next, outbox),
        None => unreachable!(),
    }
}

/// The token goes to the successor where it may.
pub fn leave(records: &mut Records, cell: CellName, outbox: &mut Outbox) -> Result<(), AllocError>
    requires { IsHere (cell_record_in records.old.entries cell).held.token }
    ensures records { OnOk result (records.new.entries ≡ with_record cell (record_after (cell_record_in records.old.entries cell).queue (leave_reply (cell_record_in records.old.entries cell).held)) records.old.entries) }
    ensures sent { OnOk result (outbox.new ≡ outbox.old ++ map (sent_as cell) (leave_reply (cell_record_in records.old.entries cell).held).sent) }
    ensures same { OnErr result (records.new.entries ≡ records.old.entries) }
    ensures unsent { OnErr result (outbox.new ≡ outbox.old) }
{
    match records.get_mut(&cell) {
        Some(place) => place.leave(cell, outbox),
        None => unreachable!(),
    }
}

/// The site that asked last is told its successor, by a message unless it is this one.
pub fn hand_on(
    records: &mut Records,
    site: u32,
    cell: CellName,
    last: u32,
    next: u32,
    outbox: &mut Outbox,
) -> Result<(), AllocError>
    requires { last ≡ site → CanFollow (cell_record_in records.old.entries cell).held }
    ensures records { OnOk result (records.new.entries ≡ with_record cell (record_after (cell_record_in records.old.entries cell).queue (get_reply site last next (cell_record_in records.old.entries cell).held)) records.old.entries) }
    ensures sent { OnOk result (outbox.new ≡ outbox.old ++ map (sent_as cell) (get_reply site last next (cell_record_in records.old.entries cell).held).sent) }
    ensures same { OnErr result (records.new.entries ≡ records.old.entries) }
    ensures unsent { OnErr result (outbox.new ≡ outbox.old) }
{
    if let Some(place) = records.get_mut(&cell) {
        return place.hand_on(cell, site, last, next, outbox);
    }
    records.reserve(1)?;
    let mut place = Place::unused(*records.allocator());
    place.hand_on(cell, site, last, next, outbox)?;
    records.insert(cell, place)?;
    Ok(())
}
