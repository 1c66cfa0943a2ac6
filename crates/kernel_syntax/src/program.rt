//! Programs.

ghost use Rattle.std.specs.Prelude.{◌≡◌, ◌↔◌, ◌<◌, length, Some, IfOk, IsTrue, slice_get};
ghost use Rattle.tree_node.specs.declared.names.CodeId.{CodeId};
ghost use Rattle.tree_node.specs.Each.{Each};
ghost use Rattle.kernel_syntax.specs.Scopes.{bodies_of, stmt_at};
ghost use Rattle.kernel_syntax.specs.Free.{AreRising, free};
ghost use Rattle.kernel_syntax.specs.Program.{IsProgram, IsStmt};
ghost use Rattle.kernel_syntax.specs.Texts.{HasTexts};

use crate::limits::is_stmt;
use crate::position_lists::PositionLists;
use crate::preorder::is_in_preorder;
use crate::stmt::Stmt;
use crate::table::{free_at, free_table};
use crate::texts::has_texts;
use std::alloc::{AllocError, Global};
use std::marker::Model;
use tree_node::CodeId;

/// A program: its statements by number, from 0, which is the whole; a body's number is above its owner's. Contracts see
/// the list of the statements. The free positions of each are kept beside it, the last statement's first.
#[derive(Drop)]
pub struct Program {
    stmts: Vec<Stmt>,
    free: PositionLists,
}

impl Model for Program {
    ghost use Rattle.std.specs.Prelude.{List};
    ghost use Rattle.kernel_syntax.specs.declared.stmt.Stmt.{Stmt};
    ghost use Rattle.kernel_syntax.specs.Table.{HasFreeTable};

    ghost Value = { List Stmt };

    ghost view = { λ p. p.stmts.items };

    ghost invariant = { λ p. HasFreeTable p.stmts.items p.free };
}

/// Why statements make no program.
#[derive(Clone, Copy, Debug, PartialEq, Eq)]
pub enum ProgramError {
    /// They are the table of none.
    NoProgram,
    /// Memory ran out.
    Memory,
}

// Whether statements are the table of a program.
#[tactic(auto, using(crate::proofs::PreorderLemmas::program_of))]
fn is_program_table(alloc: Global, stmts: &[Stmt]) -> Result<bool, AllocError>
    ensures { IfOk result (λ b. IsTrue b ↔ IsProgram stmts.now) }
{
    Ok(are_stmts(stmts) && have_texts(alloc, stmts)? && is_in_preorder(alloc, stmts)?)
}

fn are_stmts(stmts: &[Stmt]) -> bool
    ensures { IsTrue result ↔ Each IsStmt stmts.now }
{
    for stmt in stmts {
        if !is_stmt(stmt) {
            return false;
        }
    }
    true
}

fn have_texts(alloc: Global, stmts: &[Stmt]) -> Result<bool, AllocError>
    ensures { IfOk result (λ b. IsTrue b ↔ Each HasTexts stmts.now) }
{
    for stmt in stmts {
        if !has_texts(alloc, stmt)? {
            return Ok(false);
        }
    }
    Ok(true)
}

impl Program {
    /// The program with these statements, if they are one: who makes a program by hand calls it.
    pub fn try_from_vec(alloc: Global, stmts: Vec<Stmt>) -> Result<Program, ProgramError>
        ensures program { IfOk result (λ p. (p ≡ stmts.items) × IsProgram stmts.items) }
        ensures no_program { result ≡ Err ProgramError.NoProgram → IsProgram stmts.items → ⊥ }
    {
        match is_program_table(alloc, stmts.as_slice()) {
            Ok(true) => match Program::from_vec(alloc, stmts) {
                Ok(program) => Ok(program),
                Err(_) => Err(ProgramError::Memory),
            },
            Ok(false) => Err(ProgramError::NoProgram),
            Err(_) => Err(ProgramError::Memory),
        }
    }

    /// The program with these statements. The free positions of all of them are found here, once.
    pub fn from_vec(alloc: Global, stmts: Vec<Stmt>) -> Result<Program, AllocError>
        requires { IsProgram stmts.items }
        ensures { IfOk result (λ p. p ≡ stmts.items) }
    {
        let free = free_table(alloc, stmts.as_slice())?;
        Ok(Program { stmts, free })
    }

    /// What every program is. It does nothing: a caller learns the fact.
    pub fn is_program(&self)
        ensures { IsProgram self.now }
    {
        let _ = &self.stmts;
    }

    /// The number of statements.
    pub fn len(&self) -> usize
        ensures { result ≡ length self.now }
    {
        self.stmts.len()
    }

    /// The statement of a number.
    pub fn code(&self, code: CodeId) -> &Stmt
        requires { code.0 < length self.now }
        ensures found { slice_get self.now code.0 ≡ Some result.now }
        ensures value { result.now ≡ stmt_at self.now code }
        ensures fits { IsStmt result.now }
        ensures bodies { Each (λ (c : CodeId). (code.0 < c.0) × (c.0 < length self.now)) (bodies_of result.now) }
    {
        &self.stmts[code.0 as usize]
    }

    /// The positions that a statement uses and does not declare, in ascending order.
    pub fn free(&self, code: CodeId) -> &[u32]
        requires { code.0 < length self.now }
        ensures value { result.now ≡ free self.now code }
        ensures order { AreRising result.now }
    {
        free_at(&self.free, self.stmts.len(), code)
    }
}
