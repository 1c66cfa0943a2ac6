//! A world of one cell, whose messages are delivered in any order, and the law of the cell protocol over every list of
//! its calls.

ghost use Rattle.std.specs.Prelude.{◌≡◌, ℕ, ◌^◌, ◌<◌, ◌≤◌, ◌↔◌, length, Err, Some, OnOk, OnErr, IfOk, slice_get, swap_remove};
ghost use Rattle.tree_node.specs.declared.names.VarName.{VarName};
ghost use Rattle.site_message.specs.declared.message.Sent.{Sent};
ghost use Rattle.site_message.specs.declared.reason.DeliverError.TheVariants.{NotThere};
ghost use Rattle.token_chain.specs.Chain.{QuietServesAll};
ghost use Rattle.token_chain.specs.Holding.{answer_of};
ghost use Rattle.token_chain.specs.Moves.{MakingStarts, AskingKeeps, WaitingKeeps, OwnAskingKeeps, GetKeeps, ForwardKeeps, PutKeeps, ExchangeKeeps, UnitKeeps, NothingKeeps, MessagesCanCome, TokensHaveContents, SuccessorsAsked, AwayKeepsNothing, LastIsUsed, GetsAreOfOthers};
ghost use Rattle.token_chain.specs.Tally.{MakingTallies, RowsPay, RepliesPay, TalliesBound, KindsBound};
ghost use Rattle.token_chain.specs.Worked.{WorkedRequests};
ghost use Rattle.token_chain.specs.World.{IsSite, held_at, AreHandedOn, line, first_world};
ghost use Rattle.token_chain.specs.Calls.{Asks, Delivers, Step, HasChain, IsLinedUp, SendsFrom, EveryListOfCalls};

use crate::ask::Ask;
use crate::world::{self, Parts};
use site_message::{DeliverError, Sent};
use std::alloc::{AllocError, Global};
use std::marker::Model;
use tree_node::VarName;

/// A world of one cell over sites 1, 2 and on: its manager, what each site keeps of it and which contents wait there, the
/// messages under way, which are delivered in any order, and the exchanges made (TOPLAS 19(5), 1997). What a site asks of
/// itself happens in the same call.
#[derive(Drop)]
pub struct CellWorld {
    parts: Parts,
}

impl Model for CellWorld {
    ghost use Rattle.token_chain.specs.World.{World};

    ghost Value = { World };

    ghost use Rattle.token_chain.specs.View.{world_of};
    ghost use Rattle.token_chain.specs.Calls.{IsLawful};

    ghost view = { λ s. world_of s.parts };

    ghost invariant = { λ s. IsLawful (world_of s.parts) };
}

impl CellWorld {
    /// The world of a cell that its owner made with this content. It is number 0 of that site, which is its manager and has
    /// the token.
    #[tactic(auto, using(crate::proofs::FitLemmas::begin_lawful))]
    pub fn new(
        alloc: Global,
        sites: u32,
        owner: u32,
        content: VarName,
    ) -> Result<CellWorld, AllocError>
        requires owner { (1 ≤ owner) × (owner ≤ sites) }
        ensures world { IfOk result (λ w. w ≡ first_world sites owner content) }
        ensures chain { IfOk result HasChain }
    {
        let parts = world::make(alloc, sites, owner, content)?;
        Ok(CellWorld { parts })
    }

    /// A thread of a site asks to exchange the cell's content for this one. With the token here that is done at once;
    /// else the content waits behind the others of that site, and the token is asked for where it was not yet.
    #[tactic(auto, using(crate::proofs::FitLemmas::ready_last))]
    pub fn ask(&mut self, site: u32, new: VarName) -> Result<Ask, AllocError>
        requires site { IsSite self.old site }
        requires room { (held_at self.old.places site).waiting < 2 ^ 60 }
        ensures answer { IfOk result (λ a. a ≡ answer_of (held_at self.old.places site).token) }
        ensures step { OnOk result (Step self.old (Asks site new) self.new) }
        ensures chain { HasChain self.new }
        ensures handed { AreHandedOn self.new.first self.new.exchanges }
        ensures first { self.new.first ≡ self.old.first }
        ensures sites { length self.new.places ≡ length self.old.places }
        ensures order { OnOk result (IsLinedUp self.old self.new site new) }
        ensures others { OnOk result (SendsFrom site self.old.travelling self.new.travelling) }
        ensures err { OnErr result (self.new ≡ self.old) }
    {
        let answer = world::ask(&mut self.parts, site, new)?;
        Ok(answer)
    }

    /// Delivers the message at a place. A Put serves all that wait at its site, and then the token leaves where it may.
    pub fn deliver(&mut self, place: usize) -> Result<(), DeliverError>
        ensures not_there { (result ≡ Err NotThere) ↔ (length self.old.travelling ≤ place) }
        ensures step { OnOk result (Step self.old (Delivers place) self.new) }
        ensures chain { HasChain self.new }
        ensures handed { AreHandedOn self.new.first self.new.exchanges }
        ensures first { self.new.first ≡ self.old.first }
        ensures sites { length self.new.places ≡ length self.old.places }
        ensures order { (s : ℕ) → line self.new s ≡ line self.old s }
        ensures others { OnOk result ((m : Sent) × (slice_get self.old.travelling place ≡ Some m) × SendsFrom m.to (swap_remove self.old.travelling place m) self.new.travelling) }
        ensures err { OnErr result (self.new ≡ self.old) }
    {
        if place >= self.parts.travelling.len() {
            return Err(DeliverError::NotThere);
        }
        world::deliver(&mut self.parts, place)?;
        Ok(())
    }

    /// The messages that were sent and not delivered. The number of one is its place.
    pub fn travelling(&self) -> &[Sent]
        ensures { result.now ≡ self.now.travelling }
    {
        self.parts.travelling.as_slice()
    }

    /// The exchanges in the order in which they were made, each the old and the new content.
    pub fn exchanges(&self) -> &[(VarName, VarName)]
        ensures { result.now ≡ self.now.exchanges }
    {
        self.parts.exchanges.as_slice()
    }

    /// The site of each exchange.
    pub fn served(&self) -> &[u32]
        ensures { result.now ≡ self.now.served }
    {
        self.parts.served.as_slice()
    }

    /// How many sites the world has.
    pub fn sites(&self) -> usize
        ensures { result ≡ length self.now.places }
    {
        self.parts.places.len()
    }

    /// How many contents wait at a site. Far fewer than 2^60 do, as each takes 16 bytes.
    pub fn waiting(&self, site: u32) -> u64
        requires site { IsSite self.now site }
        ensures { result ≡ (held_at self.now.places site).waiting }
    {
        self.parts.places[site as usize - 1].held.state().waiting
    }
}

/// After every list of calls the sites that asked form one chain, contents are handed on along it from the first on, and
/// each site's contents are exchanged in the order in which it asked, each once. Where nothing is under way, none waits.
pub fn every_list_of_calls()
    ensures { EveryListOfCalls }
{}

/// Where no message of a cell is under way, no site asked for its token and nobody waits for it.
pub fn quiet_serves_all()
    ensures { QuietServesAll }
{}

/// What a site does with its part of a cell keeps the chain, in any world: what the sites keep of the cell and the
/// numbers of its messages under way are functions, so that other messages may travel beside them.
pub fn moves_keep_the_chain()
    ensures making { MakingStarts }
    ensures asking { AskingKeeps }
    ensures waiting { WaitingKeeps }
    ensures own_asking { OwnAskingKeeps }
    ensures get { GetKeeps }
    ensures forward { ForwardKeeps }
    ensures put { PutKeeps }
    ensures exchange { ExchangeKeeps }
    ensures unit { UnitKeeps }
    ensures nothing { NothingKeeps }
{}

/// What a chain says of a message under way, and of a site where the token is, which has a successor, which asked last, or
/// to which the cell is of no concern. A Get under way is of another site than the manager's.
pub fn chains_tell()
    ensures messages { MessagesCanCome }
    ensures contents { TokensHaveContents }
    ensures successors { SuccessorsAsked }
    ensures away { AwayKeepsNothing }
    ensures last { LastIsUsed }
    ensures gets { GetsAreOfOthers }
{}

/// The messages of a cell are paid for by its exchanges: each request has one Get, one Forward and one Put at most, and is
/// outstanding or followed by an exchange.
pub fn messages_are_paid()
    ensures making { MakingTallies }
    ensures rows { RowsPay }
    ensures replies { RepliesPay }
    ensures bound { TalliesBound }
    ensures kinds { KindsBound }
{}

/// Worked requests of three sites by the rows of one site. It does nothing: its clause is the row.
pub fn worked_requests()
    ensures { WorkedRequests }
{}
