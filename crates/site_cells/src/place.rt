//! What a site keeps of one cell.

ghost use Rattle.std.specs.Prelude.{◌≡◌, ◌<◌, ◌↔◌, [], ◌∷◌, ◌++◌, map, OnOk, OnErr, IsTrue};
ghost use Rattle.token_chain.specs.declared.token.Token.TheVariants.{Away, Asked, Here};
ghost use Rattle.token_chain.specs.Holding.{IsHere, CanFollow, here_with, with_waiter};
ghost use Rattle.token_chain.specs.Mail.{Put, sent_as};
ghost use Rattle.token_chain.specs.Rows.{leave_reply, forward_reply, get_reply};
ghost use Rattle.site_model.specs.Site.{unused_cell};

use site_message::{Bundle, Msg, Outbox, Sent};
use std::alloc::{AllocError, Global};
use std::marker::Model;
use std::mem;
use token_chain::CellSite;
use tree_node::{CellName, Seq, ThreadName, VarName};

/// Threads in the order in which they asked.
pub type Queue = Seq<ThreadName>;

// So many threads never wait, as each takes 16 bytes. Then memory has run out.
const MOST_WAITING: u64 = 1 << 59;

/// A site's part of a cell, and its threads that wait for the token.
#[derive(Drop)]
pub struct Place {
    held: CellSite,
    queue: Queue,
}

impl Model for Place {
    ghost use Rattle.site_model.specs.Site.{CellRecord};

    ghost Value = { CellRecord };

    ghost use Rattle.site_cells.specs.Place.{IsCounted};

    ghost view = { λ p. record { held = p.held; queue = p.queue } };

    ghost invariant = { λ p. IsCounted p.held p.queue };
}

// The token with its content, as it is sent.
fn put(cell: CellName, to: u32, content: VarName) -> Sent
    ensures { result ≡ sent_as cell (Put to content) }
{
    let msg = Msg::Put {
        cell,
        content,
        bundle: Bundle::new(),
    };
    Sent { to, msg }
}

// Each of those that wait is served.
fn serve_all(held: &mut CellSite, content: VarName, threads: usize)
    requires here { held.old.token ≡ Here content }
    requires waiting { held.old.waiting ≡ threads }
    ensures { held.new ≡ record held.old { waiting = 0 } }
{
    for _ in 0..threads {
        let _ = held.swap(content);
    }
}

impl Place {
    /// The site has nothing to do with the cell.
    pub fn unused(alloc: Global) -> Place
        ensures { result ≡ unused_cell }
    {
        Place {
            held: CellSite::away(),
            queue: Seq::new(alloc),
        }
    }

    /// The site made the cell, with this content.
    pub fn new_here(alloc: Global, content: VarName) -> Place
        ensures { result ≡ record { held = here_with content; queue = [] } }
    {
        Place {
            held: CellSite::new_here(content),
            queue: Seq::new(alloc),
        }
    }

    /// Whether the token is here.
    pub fn is_here(&self) -> bool
        ensures { IsTrue result ↔ IsHere self.now.held.token }
    {
        self.held.state().here
    }

    /// Whether the token was asked for.
    pub fn is_asked(&self) -> bool
        ensures asked { IsTrue result ↔ (self.now.held.token ≡ Asked) }
        ensures unused { self.now.held.token ≡ Away → self.now ≡ unused_cell }
    {
        self.held.state().asked
    }

    /// Whether the site can be told its successor.
    pub fn can_follow(&self) -> bool
        ensures { IsTrue result ↔ CanFollow self.now.held }
    {
        let state = self.held.state();
        state.next.is_none() && (state.here || state.asked)
    }

    /// A thread exchanges the content of the token.
    pub fn exchange(&mut self, new: VarName) -> VarName
        requires { IsHere self.old.held.token }
        ensures old { self.old.held.token ≡ Here result }
        ensures new { self.new ≡ record self.old { held = record self.old.held { token = Here new } } }
    {
        let _ = self.held.ask();
        self.held.swap(new)
    }

    /// A thread waits behind the others.
    pub fn wait(&mut self, thread: ThreadName) -> Result<(), AllocError>
        ensures ok { OnOk result (self.new ≡ record { held = with_waiter self.old.held; queue = self.old.queue ++ thread ∷ [] }) }
        ensures err { OnErr result (self.new ≡ self.old) }
    {
        if self.held.state().waiting >= MOST_WAITING {
            return Err(AllocError);
        }
        self.queue.push(thread)?;
        let _ = self.held.ask();
        Ok(())
    }

    /// The token comes, and all that waited for it are handed out.
    pub fn arrive(&mut self, alloc: Global, content: VarName) -> Queue
        requires { self.old.held.token ≡ Asked }
        ensures queue { result ≡ self.old.queue }
        ensures new { self.new ≡ record { held = record self.old.held { token = Here content; waiting = 0 }; queue = [] } }
    {
        self.held.on_put(content);
        serve_all(&mut self.held, content, self.queue.as_slice().len());
        mem::replace(&mut self.queue, Seq::new(alloc))
    }

    /// The site is told its successor, and the token goes there where it may.
    pub fn follow(
        &mut self,
        cell: CellName,
        next: u32,
        outbox: &mut Outbox,
    ) -> Result<(), AllocError>
        requires { CanFollow self.old.held }
        ensures held { OnOk result (self.new ≡ record self.old { held = (forward_reply self.old.held next).held }) }
        ensures sent { OnOk result (outbox.new ≡ outbox.old ++ map (sent_as cell) (forward_reply self.old.held next).sent) }
        ensures same { OnErr result (self.new ≡ self.old) }
        ensures unsent { OnErr result (outbox.new ≡ outbox.old) }
    {
        self.held.on_forward(next);
        if let Some((to, content)) = self.held.leave() {
            if outbox.push(put(cell, to, content)).is_err() {
                self.held = CellSite::new_here(content);
                return Err(AllocError);
            }
        }
        Ok(())
    }

    /// The site that asked last is told its successor, by a message unless it is this one.
    pub fn hand_on(
        &mut self,
        cell: CellName,
        site: u32,
        last: u32,
        next: u32,
        outbox: &mut Outbox,
    ) -> Result<(), AllocError>
        requires { last ≡ site → CanFollow self.old.held }
        ensures held { OnOk result (self.new ≡ record self.old { held = (get_reply site last next self.old.held).held }) }
        ensures sent { OnOk result (outbox.new ≡ outbox.old ++ map (sent_as cell) (get_reply site last next self.old.held).sent) }
        ensures same { OnErr result (self.new ≡ self.old) }
        ensures unsent { OnErr result (outbox.new ≡ outbox.old) }
    {
        if last == site {
            return self.follow(cell, next, outbox);
        }
        let msg = Msg::Forward { cell, next };
        outbox.push(Sent { to: last, msg })?;
        Ok(())
    }

    /// The token goes to the successor where it may.
    pub fn leave(&mut self, cell: CellName, outbox: &mut Outbox) -> Result<(), AllocError>
        ensures held { OnOk result (self.new ≡ record self.old { held = (leave_reply self.old.held).held }) }
        ensures sent { OnOk result (outbox.new ≡ outbox.old ++ map (sent_as cell) (leave_reply self.old.held).sent) }
        ensures same { OnErr result (self.new ≡ self.old) }
        ensures unsent { OnErr result (outbox.new ≡ outbox.old) }
    {
        if let Some((to, content)) = self.held.leave() {
            if outbox.push(put(cell, to, content)).is_err() {
                self.held = CellSite::new_here(content);
                self.held.on_forward(to);
                return Err(AllocError);
            }
        }
        Ok(())
    }
}
