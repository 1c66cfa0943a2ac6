//! A run that is made again step by step.

ghost use Rattle.std.specs.Prelude.{◌≡◌, ◌<◌, ◌^◌, ◌∷◌, ◌↔◌, [], Some, IfOk, OnOk, OnErr, IfErr, IsSome, IsTrue, false, true};
ghost use Rattle.tree_node.specs.Assoc.{value_of};
ghost use Rattle.tree_node.specs.State.{equal_thread};
ghost use Rattle.oz_model.specs.Run.{AtRest, Run, start};
ghost use Rattle.machine_state.specs.Numbers.{NumbersBelow};
ghost use Rattle.central_machine.specs.Centre.{IsPicked};
ghost use Rattle.central_machine.specs.Refusals.{IsRefusalOf};
ghost use Rattle.run_trace.specs.Births.{births};
ghost use Rattle.run_trace.specs.Raised.{raises};
ghost use Rattle.run_trace.specs.Begun.{begun, begun_with, last_begun};
ghost use Rattle.run_trace.specs.Waits.{AreWaiting, IsWaitingAt};

use crate::begun::LastBegun;
use crate::findings::{Begun, Birth, Raise, Waiting};
use crate::notes::{Notes, note};
use crate::top::{begin, begun_by, told_by};
use central_machine::{Central, Refusal};
use kernel_syntax::Program;
use std::alloc::{AllocError, Global};
use std::marker::Model;
use tree_node::{Pick, ThreadName};

/// A run of a program that is made again pick by pick, with the exceptions that rose in it. Contracts see it as the machine that the
/// picks drive.
#[derive(Drop)]
pub struct Trace<'a> {
    alloc: Global,
    program: &'a Program,
    central: Central<'a>,
    last: LastBegun,
    notes: Notes,
    spent: bool,
}

impl<'a> Model for Trace<'a> {
    ghost use Rattle.std.specs.Prelude.{◌≡◌, false};
    ghost use Rattle.central_machine.specs.Centre.{Centre};
    ghost use Rattle.run_trace.specs.Kept.{IsTraced};

    ghost Value = { Centre };

    ghost view = { λ t. record t.central { spent = t.spent } };

    ghost invariant = { λ t. (t.central.program ≡ t.program.now) × (t.spent ≡ false → IsTraced t.central t.last t.notes.raises.items t.notes.births.items) };
}

impl<'a> Trace<'a> {
    /// The run at its start.
    pub fn new(alloc: Global, program: &'a Program) -> Result<Trace<'a>, AllocError>
        ensures program { IfOk result (λ t. t.program ≡ program.now) }
        ensures state { IfOk result (λ t. t.state ≡ start program.now) }
        ensures picks { IfOk result (λ t. t.picks ≡ []) }
        ensures spent { IfOk result (λ t. t.spent ≡ false) }
    {
        Ok(Trace {
            alloc,
            program,
            central: Central::new(alloc, program)?,
            last: LastBegun::new(alloc),
            notes: Notes::new(alloc),
            spent: false,
        })
    }

    /// The next step, by this pick, whose names have numbers below 2^61: done exactly where the model has one, unless memory is wanting.
    /// After an error the run is given up.
    pub fn step(&mut self, pick: Pick) -> Result<(), Refusal>
        requires { NumbersBelow (2 ^ 61) (pick ∷ []) }
        ensures ok { OnOk result (IsPicked self.old pick self.new) }
        ensures refused { IfErr result (λ e. IsRefusalOf self.old.program self.old.state pick e) }
        ensures given_up { OnErr result (self.new.spent ≡ true) }
    {
        if self.spent {
            return Err(Refusal::Memory);
        }
        self.spent = true;
        if begin(self.alloc, &self.central, &mut self.last, pick.thread).is_err() {
            return Err(Refusal::Memory);
        }
        self.central.is_run();
        let told = told_by(&self.central, self.program, &pick);
        self.central.step(pick)?;
        match note(&self.central, &self.last, &mut self.notes, told) {
            Err(_) => Err(Refusal::Memory),
            Ok(()) => {
                self.spent = false;
                Ok(())
            }
        }
    }

    /// Does nothing: by its contract callers know that the picks lead to the state.
    pub fn is_run(&self)
        ensures { self.now.spent ≡ false → Run self.now.program self.now.picks self.now.state }
    {
        self.central.is_run();
    }

    /// The machine at the end of the steps made so far, which tells values and stacks.
    pub fn central(&self) -> &Central<'a>
        ensures { self.now.spent ≡ false → result.now ≡ self.now }
    {
        &self.central
    }

    /// The threads that were made so far, in order; the first of the program is not among them.
    pub fn births(&self) -> &[Birth]
        ensures { self.now.spent ≡ false → result.now ≡ births self.now.program self.now.picks }
    {
        self.notes.births.as_slice()
    }

    /// The exceptions that rose so far, caught ones among them, in order.
    pub fn raises(&self) -> &[Raise]
        ensures { self.now.spent ≡ false → result.now ≡ raises self.now.program self.now.picks }
    {
        self.notes.raises.as_slice()
    }

    /// Whether each living thread waits, so that nothing goes on.
    pub fn at_rest(&self) -> bool
        ensures { self.now.spent ≡ false → IsTrue result ↔ AtRest self.now.program self.now.state }
    {
        self.central.at_rest()
    }

    /// The threads that wait, where the run is at rest: all that live, in the order in which they were made.
    pub fn waiting(&self) -> Result<Vec<Waiting>, AllocError>
        requires { AtRest self.now.program self.now.state }
        ensures { IfOk result (λ ws. AreWaiting self.now.program self.now.picks self.now.state ws.items) }
    {
        let living = self.central.living()?;
        let names = living.as_slice();
        let mut waiting = Vec::new(self.alloc);
        for thread in names {
            waiting.push(self.waiting_at(*thread)?)?;
        }
        Ok(waiting)
    }

    // A living thread, where the run is at rest.
    fn waiting_at(&self, thread: ThreadName) -> Result<Waiting, AllocError>
        requires rest { AtRest self.now.program self.now.state }
        requires lives { IsSome (value_of equal_thread self.now.state.threads thread) }
        ensures thread { IfOk result (λ w. w.begun.thread ≡ thread) }
        ensures waits { IfOk result (λ w. IsWaitingAt self.now.program self.now.picks self.now.state w) }
    {
        let awaited = self.central.needs(thread)?;
        let begun = self.begun_last(thread)?;
        Ok(Waiting { begun, awaited })
    }

    // The statement that a living thread goes on with: that on top, or the one that it began last.
    fn begun_last(&self, thread: ThreadName) -> Result<Begun, AllocError>
        requires lives { IsSome (value_of equal_thread self.now.state.threads thread) }
        ensures { IfOk result (λ b. last_begun (begun_with self.now.state thread (begun self.now.program self.now.picks)) thread ≡ Some b) }
    {
        if self.spent {
            return Err(AllocError);
        }
        self.central.is_run();
        if let Some(begun) = begun_by(self.alloc, &self.central, thread)? {
            return Ok(begun);
        }
        match self.last.get(thread)? {
            Some(begun) => Ok(begun),
            None => unreachable!(),
        }
    }
}
