//! Rows that declare identifiers or branch, whose bodies come behind them.

ghost use Rattle.std.specs.Prelude.{◌≡◌, ◌+◌, ◌<◌, ◌≤◌, ◌^◌, [], length, IfOk, OnOk};
ghost use Rattle.kernel_syntax.specs.declared.stmt.Stmt.TheVariants as stmt;
ghost use Rattle.kernel_syntax.specs.Scopes.{features_in};
ghost use Rattle.oz_grammar.specs.Table.{code_at};
ghost use Rattle.sugar_rows.specs.Put.{declare};
ghost use Rattle.sugar_rows.specs.Writing.{add, behind, last_rows, write_ends, write_locals, state_of, written};

use super::Writer;
use crate::leaves::{copy_pattern, two_bodies};
use kernel_syntax::{Pattern, Positions, Stmt, features};
use std::alloc::{AllocError, Global};
use tree_node::CodeId;

impl Writer {
    /// A `local` for one new identifier, and a row to be a sequence.
    pub(super) fn open_local(&mut self) -> Result<(), AllocError>
        ensures rows { OnOk result (self.new ≡ state_of (add stmt.Skip (add (stmt.Local self.old.around 1 (behind self.old.rows)) self.old.rows)) self.old.places (self.old.around + 1)) }
        ensures len { OnOk result (length self.new.rows ≡ length self.old.rows + 1 + 1) }
    {
        self.room()?;
        let body = self.behind();
        self.add(Stmt::Local {
            first: self.around,
            count: 1,
            body,
        })?;
        self.add(Stmt::Skip)?;
        self.around += 1;
        Ok(())
    }

    /// The row of an `if`, whose second body is still to come.
    pub(super) fn open_if(&mut self, tested: u32) -> Result<(), AllocError>
        ensures rows { OnOk result (self.new ≡ written (add (stmt.If tested (behind self.old.rows) (code_at 0)) self.old.rows) self.old) }
        ensures len { OnOk result (length self.new.rows ≡ length self.old.rows + 1) }
    {
        self.room()?;
        let yes = self.behind();
        self.add(Stmt::If {
            subject: tested,
            yes,
            no: CodeId(0),
        })
    }

    /// The row of a `try`, whose handler is still to come.
    pub(super) fn open_try(&mut self) -> Result<(), AllocError>
        ensures rows { OnOk result (self.new ≡ written (add (stmt.Try (behind self.old.rows) self.old.around (code_at 0)) self.old.rows) self.old) }
        ensures len { OnOk result (length self.new.rows ≡ length self.old.rows + 1) }
    {
        self.room()?;
        let body = self.behind();
        let first = self.around;
        self.add(Stmt::Try {
            body,
            first,
            handler: CodeId(0),
        })
    }

    /// A `local` for each of so many new identifiers, each in the one before.
    pub(super) fn open_locals(&mut self, count: usize) -> Result<(), AllocError>
        ensures rows { OnOk result (self.new ≡ state_of (write_locals count self.old.around self.old.rows) self.old.places (self.old.around + count)) }
        ensures grows { OnOk result (length self.old.rows ≤ length self.new.rows) }
    {
        for _ in 0..count {
            self.room()?;
            let body = self.behind();
            let first = self.around;
            self.add(Stmt::Local {
                first,
                count: 1,
                body,
            })?;
            self.around += 1;
        }
        Ok(())
    }

    /// The rows before the tell of a record with so many new identifiers: a `local` for each, and a row to be a sequence, whose place
    /// this is. The tell comes behind it, and is the first of the sequence.
    pub(super) fn open_record(&mut self, count: usize) -> Result<usize, AllocError>
        ensures owner { IfOk result (λ k. k ≡ length (write_locals count self.old.around self.old.rows)) }
        ensures small { IfOk result (λ k. k < 2 ^ 31) }
        ensures rows { OnOk result (self.new ≡ state_of (add stmt.Skip (write_locals count self.old.around self.old.rows)) self.old.places (self.old.around + count)) }
        ensures len { OnOk result (length (write_locals count self.old.around self.old.rows) + 1 ≡ length self.new.rows) }
        ensures grows { OnOk result (length self.old.rows ≤ length self.new.rows) }
    {
        self.open_locals(count)?;
        self.room()?;
        let owner = self.rows.len();
        self.add(Stmt::Skip)?;
        Ok(owner)
    }

    /// The rows before the statements behind `finally`.
    pub(super) fn open_finally(&mut self) -> Result<(), AllocError>
        ensures rows { OnOk result (self.new ≡ state_of (last_rows self.old.around self.old.rows) self.old.places (self.old.around + 1)) }
        ensures len { OnOk result (length self.new.rows ≡ length self.old.rows + 1 + 1 + 1) }
    {
        self.room()?;
        let left = self.around;
        let inside = CodeId(self.rows.len() as u32 + 3);
        self.open_local()?;
        self.add(Stmt::TellProc {
            left,
            first: left + 1,
            count: 0,
            body: inside,
        })
    }

    /// The handler and the last call, behind the statements that are tried.
    pub(super) fn end_finally(
        &mut self,
        outer: u32,
        owner: usize,
        tried: usize,
    ) -> Result<(), AllocError>
        requires owner { owner < length self.old.rows }
        requires tried { tried < length self.old.rows }
        ensures rows { OnOk result (self.new ≡ state_of (write_ends outer owner tried self.old.rows) self.old.places outer) }
        ensures grows { OnOk result (length self.old.rows ≤ length self.new.rows) }
    {
        self.room()?;
        if outer >= 1 << 31 {
            return Err(AllocError);
        }
        let first = CodeId(self.rows.len() as u32 + 1);
        let second = CodeId(self.rows.len() as u32 + 2);
        let inside = two_bodies(self.alloc, first, second)?;
        self.add(Stmt::Seq(inside))?;
        self.add(call_of(self.alloc, outer))?;
        self.add(Stmt::Raise(outer + 1))?;
        let last = CodeId(self.rows.len() as u32);
        self.add(call_of(self.alloc, outer))?;
        let mut numbers = two_bodies(self.alloc, CodeId(owner as u32 + 1), CodeId(tried as u32))?;
        numbers.push(last)?;
        self.set_numbers(owner, numbers);
        self.around = outer;
        Ok(())
    }

    /// The row of a `case`, whose second body is still to come, and the identifiers of its pattern.
    pub(super) fn open_case(&mut self, pattern: &Pattern, tested: u32) -> Result<(), AllocError>
        ensures rows { OnOk result (self.new ≡ state_of (add (stmt.Case tested pattern.now self.old.around (behind self.old.rows) (code_at 0)) self.old.rows) (declare self.old.places self.old.around (length (features_in pattern.now))) (self.old.around + length (features_in pattern.now))) }
        ensures len { OnOk result (length self.new.rows ≡ length self.old.rows + 1) }
    {
        self.room()?;
        let yes = self.behind();
        let count = features(pattern).len();
        if count > 1 << 31 {
            return Err(AllocError);
        }
        let first = self.around;
        let copy = copy_pattern(self.alloc, pattern)?;
        self.add(Stmt::Case {
            subject: tested,
            pattern: copy,
            first,
            yes,
            no: CodeId(0),
        })?;
        self.declare(count as u32)
    }
}

fn call_of(alloc: Global, callee: u32) -> Stmt
    ensures { result ≡ stmt.Call callee [] }
{
    Stmt::Call {
        callee,
        args: Positions::from_vec(Vec::new(alloc)),
    }
}
