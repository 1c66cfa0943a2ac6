//! The writer of what trees stand for.

ghost use Rattle.std.specs.Prelude.{◌≡◌, ◌+◌, ◌<◌, ◌^◌, [], length, take, IfOk, OnOk};
ghost use Rattle.kernel_syntax.specs.declared.stmt.Stmt.TheVariants as stmt;
ghost use Rattle.sugar_rows.specs.Put.{place, declare};
ghost use Rattle.sugar_rows.specs.Writing.{add, behind, set_second, with_second, with_numbers, state_of, written};

use crate::leaves::position_at;
use kernel_syntax::{Bodies, Stmt};
use std::alloc::{AllocError, Global};
use std::marker::Model;
use tree_node::{CodeId, Text};

mod openings;
mod statements;
mod values;

/// A writer: the rows so far, the positions in the program of the identifiers that the text declares, the number of
/// declarations in the program, and the label of pairs.
#[derive(Drop)]
pub struct Writer {
    alloc: Global,
    rows: Vec<Stmt>,
    places: Vec<u32>,
    around: u32,
    bar: Text,
}

impl Model for Writer {
    ghost use Rattle.sugar_rows.specs.Writing.{State, state_of};

    ghost Value = { State };

    ghost view = { λ w. state_of w.rows.items w.places.items w.around };

    ghost use Rattle.std.specs.Prelude.{◌≡◌};
    ghost use Rattle.oz_grammar.specs.Table.{bar_label};

    ghost invariant = { λ w. w.bar ≡ bar_label };
}

impl Writer {
    /// A writer of no rows, with room for so many.
    pub fn new(alloc: Global, room: usize) -> Result<Writer, AllocError>
        ensures { IfOk result (λ w. w ≡ state_of [] [] 0) }
    {
        Ok(Writer {
            alloc,
            rows: Vec::with_capacity(alloc, room)?,
            places: Vec::new(alloc),
            around: 0,
            bar: Text::from_vec(Vec::from_slice(alloc, b"|")?)?,
        })
    }

    /// The rows.
    pub fn into_rows(self) -> Vec<Stmt>
        ensures { result.items ≡ self.rows }
    {
        self.rows
    }

    /// Numbers of 32 bits count the rows and the declarations, and some more; else there is no room for the table.
    fn room(&self) -> Result<(), AllocError>
        ensures { IfOk result (λ _. (length self.now.rows < 2 ^ 31) × (self.now.around < 2 ^ 31)) }
    {
        if self.rows.len() >= 1 << 31 || self.around >= 1 << 31 {
            return Err(AllocError);
        }
        Ok(())
    }

    /// One row more. Room is made for it first: so the row is moved once.
    #[inline(always)]
    fn add(&mut self, row: Stmt) -> Result<(), AllocError>
        ensures rows { OnOk result (self.new ≡ written (add row self.old.rows) self.old) }
        ensures len { OnOk result (length self.new.rows ≡ length self.old.rows + 1) }
    {
        self.rows.reserve(1)?;
        self.rows.push_reserved(row);
        Ok(())
    }

    /// The row that comes behind the next one.
    fn behind(&self) -> CodeId
        requires { length self.now.rows < 2 ^ 31 }
        ensures { result ≡ behind self.now.rows }
    {
        CodeId(self.rows.len() as u32 + 1)
    }

    /// The position of an identifier of the text.
    fn place(&self, identifier: u32) -> u32
        ensures { result ≡ place self.now.places identifier }
    {
        position_at(self.places.as_slice(), identifier as usize)
    }

    /// Gives the row at a place the next row as its second body.
    fn set_second(&mut self, owner: usize) -> Result<(), AllocError>
        requires { owner < length self.old.rows }
        ensures rows { OnOk result (self.new ≡ written (with_second owner self.old.rows) self.old) }
        ensures len { length self.new.rows ≡ length self.old.rows }
    {
        self.room()?;
        let number = CodeId(self.rows.len() as u32);
        give_second(number, &mut self.rows[owner]);
        Ok(())
    }

    /// Makes the row at a place a sequence of these statements.
    #[inline(always)]
    fn set_numbers(&mut self, owner: usize, numbers: Bodies)
        requires { owner < length self.old.rows }
        ensures rows { self.new ≡ written (with_numbers owner numbers self.old.rows) self.old }
        ensures len { length self.new.rows ≡ length self.old.rows }
    {
        self.rows[owner] = Stmt::Seq(numbers);
    }

    /// Only the first of the identifiers of the text, and so many declarations.
    fn leave(&mut self, declared: usize, outer: u32)
        ensures { self.new ≡ state_of self.old.rows (take declared self.old.places) outer }
    {
        self.places.truncate(declared);
        self.around = outer;
    }

    /// More identifiers of the text.
    #[tactic(auto, using(crate::proofs::Declaring::one_position))]
    fn declare(&mut self, count: u32) -> Result<(), AllocError>
        ensures { OnOk result (self.new ≡ state_of self.old.rows (declare self.old.places self.old.around count) (self.old.around + count)) }
    {
        for _ in 0..count {
            self.room()?;
            self.places.push(self.around)?;
            self.around += 1;
        }
        Ok(())
    }
}

fn give_second(number: CodeId, stmt: &mut Stmt)
    ensures { stmt.new ≡ set_second number stmt.old }
{
    match stmt {
        Stmt::If { no, .. } => *no = number,
        Stmt::Case { no, .. } => *no = number,
        Stmt::Try { handler, .. } => *handler = number,
        _ => {}
    }
}
