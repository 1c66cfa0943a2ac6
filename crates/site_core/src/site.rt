//! One site of a program.

ghost use Rattle.std.specs.Prelude.{◌≡◌, ◌≤◌, ◌+◌, ◌-◌, ◌^◌, length, Err, IfOk, OnErr, OnOk, false, true};
ghost use Rattle.std.specs.Borrow.{sem};
ghost use Rattle.tree_node.specs.declared.limits.TheConstants.{MOST_SITES, MOST_UNITS};
ghost use Rattle.site_model.specs.Site.{initial_site, is_idle};
ghost use Rattle.site_units.specs.Core.{site_of};
ghost use Rattle.site_core.specs.Seat.{LendsSeat};
ghost use Rattle.thread_roster.specs.Order.{rotated};
ghost use Rattle.thread_roster.specs.Threads.{IsOrderOf, waiting_of};
ghost use Rattle.site_core.specs.Site.{IsTurnInOrder, IsTurnMade, message_in};
ghost use Rattle.site_core.specs.Replay.{IsReplayMade, IsStuckTurn};
ghost use Rattle.site_units.specs.declared.replay.Replay.TheVariants.{NotRunnable};
ghost use Rattle.site_core.specs.Start.{first_order};

use crate::guarded::{guarded_replay, guarded_turn};
use crate::start::first_core;
use kernel_syntax::Program;
use site_message::{Msg, NoSeat, Outside, Quantum, Turn};
use site_units::{Core, Output, Replay};
use std::alloc::{AllocError, Global};
use std::marker::Model;
use tree_node::ThreadName;

/// One site of a program, with a seat. A site whose turn ran out of memory is spent: its data are given up and it makes no turn
/// any more, but its seat can still be lent and taken. What a turn makes is gathered in memory that the site keeps for the next turn.
#[derive(Drop)]
pub struct Site<'a, O> {
    program: &'a Program,
    core: Core,
    output: Output,
    spent: bool,
    seat: O,
}

impl<'a, O> Model for Site<'a, O> {
    ghost use Rattle.site_core.specs.Site.{SiteState};

    ghost Value = { SiteState O };

    ghost use Rattle.site_units.specs.Core.{site_of};
    ghost use Rattle.site_core.specs.Invariant.{IsConsistentUnlessSpent};

    ghost view = { λ s. record { program = s.program.now; sites = s.core.sites; state = site_of s.core; order = s.core.threads.order; spent = s.spent; seat = s.seat } };

    ghost invariant = { λ s. IsConsistentUnlessSpent s.program.now s.core s.output s.spent };
}

impl<'a> Site<'a, NoSeat> {
    /// Site `number` of so many, at its start: site 1 has the program's thread, the others none.
    pub fn new(
        alloc: Global,
        number: u32,
        sites: u32,
        program: &'a Program,
    ) -> Result<Site<'a, NoSeat>, AllocError>
        requires some { 1 ≤ number }
        requires among { number ≤ sites }
        requires most { sites ≤ MOST_SITES }
        ensures program { IfOk result (λ s. s.program ≡ program.now) }
        ensures sites { IfOk result (λ s. s.sites ≡ sites) }
        ensures state { IfOk result (λ s. s.state ≡ initial_site program.now sites number) }
        ensures order { IfOk result (λ s. s.order ≡ first_order number) }
        ensures live { IfOk result (λ s. s.spent ≡ false) }
    {
        let core = first_core(alloc, number, sites, program)?;
        Ok(Site {
            program,
            core,
            output: Output::new(alloc),
            spent: false,
            seat: NoSeat,
        })
    }

    /// Gives the site a seat.
    pub fn seated<O: Outside>(self, seat: O) -> Site<'a, O>
        ensures { result ≡ record { program = self.entry.program; sites = self.entry.sites; state = self.entry.state; order = self.entry.order; spent = self.entry.spent; seat = seat } }
    {
        let Site {
            program,
            core,
            output,
            spent,
            seat: _,
        } = self;
        Site {
            program,
            core,
            output,
            spent,
            seat,
        }
    }
}

impl<'a, O: Outside> Site<'a, O> {
    /// Lends the seat.
    pub fn seat(&mut self) -> &mut O
        ensures* writes_back { sem 𝓛 (LendsSeat O.row self.entry result) }
        ensures value { result.now ≡ self.old.seat }
    {
        &mut self.seat
    }

    /// The seat; the site is given up.
    pub fn into_seat(self) -> O
        ensures { result ≡ self.entry.seat }
    {
        let Site {
            program: _,
            core: _,
            output: _,
            spent: _,
            seat,
        } = self;
        seat
    }

    /// Whether no thread of the site can go on.
    pub fn idle(&self) -> bool
        ensures { result ≡ is_idle self.now.state }
    {
        self.core.threads.is_idle()
    }

    /// How many threads of the site can go on.
    pub fn runnable(&self) -> usize
        ensures { result ≡ length self.now.state.threads - waiting_of self.now.state.threads }
    {
        self.core.threads.len() - self.core.threads.waiting()
    }

    /// Exactly those of its threads stand in its order that can go on, each once. It does nothing: its clause is what it tells.
    pub fn in_order(&self)
        ensures { IsOrderOf self.now.state.threads self.now.order }
    {
        self.core.threads.in_order();
    }

    /// The first thread in the order of those that can go on goes behind the others: it is passed by. Nothing else changes.
    pub fn pass_by(&mut self)
        ensures { self.new ≡ record self.old { order = rotated self.old.order } }
    {
        self.core.threads.rotate();
    }

    /// How many own steps the site has made.
    pub fn steps(&self) -> u64
        ensures { result ≡ self.now.state.steps }
    {
        self.core.steps
    }

    /// One turn: the message, if there is one, with its number, and then as many units as the quantum, fewer only where no
    /// thread can go on then. After want of memory the site is spent.
    pub fn turn(
        &mut self,
        message: Option<(u64, Msg)>,
        quantum: Quantum,
    ) -> Result<Turn, AllocError>
        requires outside { O.is_outside self.old.seat }
        requires live { self.old.spent ≡ false }
        requires most { quantum.0 ≤ MOST_UNITS }
        requires room { self.old.state.steps ≤ 2 ^ 48 }
        ensures program { self.new.program ≡ self.old.program }
        ensures sites { self.new.sites ≡ self.old.sites }
        ensures seat { self.new.seat ≡ self.old.seat }
        ensures turn { IfOk result (λ e. IsTurnMade self.old.program self.old.sites self.old.state message quantum.0 e self.new.state) }
        ensures number { self.new.state.records.site ≡ self.old.state.records.site }
        ensures order { IfOk result (λ e. IsTurnInOrder self.old.program self.old.sites self.old.state (message_in message) e self.new.state self.old.order self.new.order) }
        ensures few { OnOk result (self.new.state.steps ≤ self.old.state.steps + quantum.0) }
        ensures live { OnOk result (self.new.spent ≡ false) }
        ensures spent { OnErr result (self.new.spent ≡ true) }
    {
        guarded_turn(
            &mut self.core,
            &mut self.output,
            &mut self.spent,
            self.program,
            message,
            quantum,
        )
    }

    /// One turn made again: the message, if there is one, with its number, and then a unit of each of these threads, in order.
    /// `NotRunnable` tells the first place whose thread cannot go on when its unit comes; after it, and after want of memory, the
    /// site is spent.
    pub fn replay(
        &mut self,
        message: Option<(u64, Msg)>,
        threads: &[ThreadName],
    ) -> Result<Turn, Replay>
        requires outside { O.is_outside self.old.seat }
        requires live { self.old.spent ≡ false }
        requires most { length threads.now ≤ MOST_UNITS }
        requires room { self.old.state.steps ≤ 2 ^ 48 }
        ensures program { self.new.program ≡ self.old.program }
        ensures sites { self.new.sites ≡ self.old.sites }
        ensures seat { self.new.seat ≡ self.old.seat }
        ensures turn { IfOk result (λ e. IsReplayMade self.old.program self.old.sites self.old.state message threads.now e self.new.state) }
        ensures as_many { IfOk result (λ e. IsTurnMade self.old.program self.old.sites self.old.state message (length threads.now) e self.new.state) }
        ensures stuck { (at : _) → result ≡ Err (NotRunnable at) → IsStuckTurn self.old.program self.old.sites self.old.state (message_in message) threads.now at }
        ensures number { self.new.state.records.site ≡ self.old.state.records.site }
        ensures few { OnOk result (self.new.state.steps ≤ self.old.state.steps + length threads.now) }
        ensures live { OnOk result (self.new.spent ≡ false) }
        ensures spent { OnErr result (self.new.spent ≡ true) }
    {
        guarded_replay(
            &mut self.core,
            &mut self.output,
            &mut self.spent,
            self.program,
            message,
            threads,
        )
    }
}
