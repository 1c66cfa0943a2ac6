//! Whether a table is in preorder.

ghost use Rattle.std.specs.Prelude.{◌≡◌, ◌↔◌, ℕ, ◌+◌, ◌<◌, ◌≤◌, ◌^◌, ◌++◌, map, IsTrue, IfOk, OnOk};
ghost use Rattle.tree_node.specs.declared.names.CodeId.{CodeId};
ghost use Rattle.tree_node.specs.declared.node.Feature.{Feature};
ghost use Rattle.tree_node.specs.Each.{Each};
ghost use Rattle.kernel_syntax.specs.Scopes.{named_positions, selector_positions};
ghost use Rattle.kernel_syntax.specs.Program.{IsStmt};
ghost use Rattle.kernel_syntax.specs.Preorder.{inner_body, sequence_body, bodies_in, DeclaresBehind, IsWholeSequence, IsBody, HasRoom, IsInPreorder};

use crate::stmt::{Selector, Stmt, features};
use std::alloc::{AllocError, AllocFailed, Global};
use tree_node::{CodeId, Feature, Stack};

/// A body that is still to come: the number of its statement, how many levels of statements it may have, how many
/// identifiers are declared around it, and whether it is one of a sequence.
#[derive(Clone, Copy)]
pub struct Body {
    pub code: CodeId,
    pub levels: u32,
    pub around: u32,
    pub in_sequence: bool,
}

// Puts the bodies of a statement before those that are still to come.
fn put_bodies(coming: &mut Stack<Body>, owner: Body, stmt: &Stmt) -> Result<(), AllocFailed<Body>>
    requires body { IsBody owner stmt.now }
    requires stmt { IsStmt stmt.now }
    requires room { HasRoom owner }
    ensures { OnOk result (coming.new ≡ bodies_in owner stmt.now ++ coming.old) }
{
    match stmt {
        Stmt::Seq(bodies) => put_sequence(coming, owner, bodies.as_slice()),
        Stmt::Local { count, body, .. } => coming.push(inner_body(owner, *count, *body)),
        Stmt::TellProc { count, body, .. } => coming.push(inner_body(owner, *count as u32, *body)),
        Stmt::If { yes, no, .. } => {
            coming.push(inner_body(owner, 0, *no))?;
            coming.push(inner_body(owner, 0, *yes))
        }
        Stmt::Case {
            pattern,
            yes,
            no,
            ..
        } => {
            coming.push(inner_body(owner, 0, *no))?;
            coming.push(inner_body(owner, features(pattern).len() as u32, *yes))
        }
        Stmt::Thread { body, .. } => coming.push(inner_body(owner, 0, *body)),
        Stmt::Try { body, handler, .. } => {
            coming.push(inner_body(owner, 1, *handler))?;
            coming.push(inner_body(owner, 0, *body))
        }
        _ => Ok(()),
    }
}

// Puts the statements of a sequence before those that are still to come.
fn put_sequence(
    coming: &mut Stack<Body>,
    owner: Body,
    bodies: &[CodeId],
) -> Result<(), AllocFailed<Body>>
    ensures { OnOk result (coming.new ≡ map (sequence_body owner) bodies.now ++ coming.old) }
{
    let mut left = bodies.len();
    while left > 0 {
        left -= 1;
        coming.push(Body {
            code: bodies[left],
            in_sequence: true,
            ..owner
        })?;
    }
    Ok(())
}

// A body of a statement that declares so many identifiers for it.
fn inner_body(owner: Body, count: u32, code: CodeId) -> Body
    requires level { 1 ≤ owner.levels }
    requires room { owner.around + count < 2 ^ 32 }
    ensures { result ≡ inner_body owner (owner.around + count) code }
{
    Body {
        code,
        levels: owner.levels - 1,
        around: owner.around + count,
        in_sequence: false,
    }
}

/// Whether a table is in preorder.
pub fn is_in_preorder(alloc: Global, stmts: &[Stmt]) -> Result<bool, AllocError>
    requires { Each IsStmt stmts.now }
    ensures { IfOk result (λ b. IsTrue b ↔ IsInPreorder stmts.now) }
{
    let mut coming = Stack::new(alloc);
    coming.push(WHOLE)?;
    for (number, stmt) in stmts.iter().enumerate() {
        match coming.pop() {
            Some(body) if body.code.0 as usize == number && is_body(body, stmt) => {
                put_bodies(&mut coming, body, stmt)?;
            }
            _ => return Ok(false),
        }
    }
    Ok(coming.pop().is_none())
}

// The whole program.
const WHOLE: Body = Body {
    code: CodeId(0),
    levels: 200,
    around: 0,
    in_sequence: false,
};

// ---- one statement

fn is_body(body: Body, stmt: &Stmt) -> bool
    requires { IsStmt stmt.now }
    ensures { IsTrue result ↔ IsBody body stmt.now }
{
    1 <= body.levels
        && names_are_within(body.around, stmt)
        && declares_behind(body.around, stmt)
        && is_whole_sequence(body.in_sequence, stmt)
}

fn is_whole_sequence(in_sequence: bool, stmt: &Stmt) -> bool
    ensures { IsTrue result ↔ IsWholeSequence in_sequence stmt.now }
{
    match stmt {
        Stmt::Seq(bodies) => !in_sequence && bodies.as_slice().len() >= 2,
        _ => true,
    }
}

fn declares_behind(around: u32, stmt: &Stmt) -> bool
    ensures { IsTrue result ↔ DeclaresBehind around stmt.now }
{
    match stmt {
        Stmt::Local { first, .. } => *first == around,
        Stmt::TellProc { first, .. } => *first == around,
        Stmt::Case { first, .. } => *first == around,
        Stmt::Try { first, .. } => *first == around,
        _ => true,
    }
}

fn names_are_within(around: u32, stmt: &Stmt) -> bool
    ensures { IsTrue result ↔ Each (λ k. k < around) (named_positions stmt.now) }
{
    match stmt {
        Stmt::TellVar { left, right } => *left < around && *right < around,
        Stmt::TellInt { left, .. } => *left < around,
        Stmt::TellAtom { left, .. } => *left < around,
        Stmt::TellRec { left, fields, .. } => {
            *left < around && fields_are_within(around, fields.as_slice())
        }
        Stmt::TellProc { left, .. } => *left < around,
        Stmt::Calc { left, a, b, .. } => *left < around && *a < around && *b < around,
        Stmt::Test { left, a, b, .. } => *left < around && *a < around && *b < around,
        Stmt::Select { left, source, by } => {
            *left < around && *source < around && selector_is_within(around, by)
        }
        Stmt::If { subject, .. } => *subject < around,
        Stmt::Case { subject, .. } => *subject < around,
        Stmt::Call { callee, args } => *callee < around && are_within(around, args.as_slice()),
        Stmt::Browse(subject) => *subject < around,
        Stmt::Wait(subject) => *subject < around,
        Stmt::NewCell { content, cell } => *content < around && *cell < around,
        Stmt::Exchange { cell, old, new } => *cell < around && *old < around && *new < around,
        Stmt::NewPort { stream, port } => *stream < around && *port < around,
        Stmt::Send { port, value } => *port < around && *value < around,
        Stmt::NewCellAt { content, cell, at } => {
            *content < around && *cell < around && *at < around
        }
        Stmt::Raise(subject) => *subject < around,
        _ => true,
    }
}

fn selector_is_within(around: u32, by: &Selector) -> bool
    ensures { IsTrue result ↔ Each (λ k. k < around) (selector_positions by.now) }
{
    match by {
        Selector::Var(position) => *position < around,
        Selector::Feature(_) => true,
    }
}

// The arguments of a call, of which there are at most 64.
fn are_within(around: u32, positions: &[u32]) -> bool
    ensures { IsTrue result ↔ Each (λ k. k < around) positions.now }
{
    match positions {
        [] => true,
        [first, others @ ..] => *first < around && are_within(around, others),
    }
}

// Fields, of which there are at most 64.
fn fields_are_within(around: u32, fields: &[(Feature, u32)]) -> bool
    ensures { IsTrue result ↔ Each (λ k. k < around) (map (λ (f : Feature × ℕ). f.1) fields.now) }
{
    match fields {
        [] => true,
        [first, others @ ..] => first.1 < around && fields_are_within(around, others),
    }
}
