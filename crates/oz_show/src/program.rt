//! The symbols of a program in its canonical form.

ghost use Rattle.std.specs.Prelude.{◌≡◌, [], ◌∷◌, ◌+◌, ◌<◌, ◌≤◌, ◌^◌, length, map, OnOk, IfOk};
ghost use Rattle.tree_node.specs.declared.names.CodeId.{CodeId};
ghost use Rattle.tree_node.specs.Each.{Each};
ghost use Rattle.kernel_syntax.specs.Scopes.{bodies_of, features_in};
ghost use Rattle.kernel_syntax.specs.Program.{IsStmt};
ghost use Rattle.oz_grammar.specs.declared.symbol.Symbol.TheVariants as t;
ghost use Rattle.oz_grammar.specs.Grammar.{ToVar, ToInt, ToAtom, ToRecord, Calculates, Tests, Selects, Raises, ProcValue, Cases, plain_text, opening_text, choice_text, names_text};
ghost use Rattle.oz_grammar.specs.Canonical.{name_at, names_from, slot_field, selection_of, pattern_tree, tell_statement, local_opening, thread_opening, bodies_symbols, row_symbols, symbols_within, canonical_symbols};

use crate::symbols::Symbols;
use kernel_syntax::{Op, Pattern, Program, Selector, Stmt, TestOp};
use oz_grammar::{Numeral, Symbol};
use std::alloc::{AllocError, Global};
use tree_node::{CodeId, Feature, Integer, Text};

/// The symbols of a program.
pub fn symbols_of(alloc: Global, program: &Program) -> Result<Symbols, AllocError>
    ensures { IfOk result (λ s. s ≡ canonical_symbols program.now) }
{
    program.is_program();
    let mut symbols = Symbols::new(alloc);
    symbols.put(Symbol::EndOfText)?;
    put_statement_of(alloc, &mut symbols, program, program.len(), CodeId(0))?;
    Ok(symbols)
}

// ---- statements with bodies

// The statement of a number, through at most so many statements, each within the one before.
#[cycle(printing)]
fn put_statement_of(
    alloc: Global,
    symbols: &mut Symbols,
    program: &Program,
    depth: usize,
    code: CodeId,
) -> Result<(), AllocError>
    requires { code.0 < length program.now }
    ensures { OnOk result (symbols.new ≡ symbols_within depth program.now code symbols.old) }
{
    if depth == 0 {
        return Ok(());
    }
    put_statement(alloc, symbols, program, depth - 1, program.code(code))
}

#[cycle(printing)]
fn put_statement(
    alloc: Global,
    symbols: &mut Symbols,
    program: &Program,
    depth: usize,
    stmt: &Stmt,
) -> Result<(), AllocError>
    requires fits { IsStmt stmt.now }
    requires bodies { Each (λ (c : CodeId). c.0 < length program.now) (bodies_of stmt.now) }
    ensures { OnOk result (symbols.new ≡ row_symbols (symbols_within depth program.now) stmt.now symbols.old) }
{
    match stmt {
        Stmt::Seq(bodies) => put_sequence(alloc, symbols, program, depth, bodies.as_slice()),
        Stmt::Local { body, .. } | Stmt::TellProc { body, .. } | Stmt::Thread { body, .. } => {
            put_body_before(alloc, symbols, program, depth, *body, Symbol::End)?;
            put_front(alloc, symbols, stmt)
        }
        Stmt::If { yes, no, .. } | Stmt::Case { yes, no, .. } => {
            put_body_before(alloc, symbols, program, depth, *no, Symbol::End)?;
            put_body_before(alloc, symbols, program, depth, *yes, Symbol::Else)?;
            put_front(alloc, symbols, stmt)
        }
        Stmt::Try {
            body,
            first,
            handler,
        } => {
            put_body_before(alloc, symbols, program, depth, *handler, Symbol::End)?;
            symbols.put(Symbol::Then)?;
            symbols.put_name(alloc, *first)?;
            put_body_before(alloc, symbols, program, depth, *body, Symbol::Catch)?;
            put_front(alloc, symbols, stmt)
        }
        _ => put_front(alloc, symbols, stmt),
    }
}

// A body and the word behind it.
#[cycle(printing)]
fn put_body_before(
    alloc: Global,
    symbols: &mut Symbols,
    program: &Program,
    depth: usize,
    body: CodeId,
    word: Symbol,
) -> Result<(), AllocError>
    requires { body.0 < length program.now }
    ensures { OnOk result (symbols.new ≡ symbols_within depth program.now body (word ∷ symbols.old)) }
{
    symbols.put(word)?;
    put_statement_of(alloc, symbols, program, depth, body)
}

// Statements one after the other, put down from the last on.
#[cycle(printing)]
fn put_sequence(
    alloc: Global,
    symbols: &mut Symbols,
    program: &Program,
    depth: usize,
    bodies: &[CodeId],
) -> Result<(), AllocError>
    requires { Each (λ (c : CodeId). c.0 < length program.now) bodies.now }
    ensures { OnOk result (symbols.new ≡ bodies_symbols (symbols_within depth program.now) bodies.now symbols.old) }
{
    let mut left = bodies.len();
    while left > 0 {
        left -= 1;
        put_statement_of(alloc, symbols, program, depth, bodies[left])?;
    }
    Ok(())
}

// ---- what stands before the first body

// A statement whose first body, if it has one, is put down already.
fn put_front(alloc: Global, symbols: &mut Symbols, stmt: &Stmt) -> Result<(), AllocError>
    requires { IsStmt stmt.now }
    ensures { OnOk result (symbols.new ≡ row_symbols (λ c rest. symbols.old) stmt.now symbols.old) }
{
    match stmt {
        Stmt::Seq(_) => Ok(()),
        Stmt::Local { first, count, .. } => put_local(alloc, symbols, *first, *count),
        Stmt::TellProc {
            left,
            first,
            count,
            ..
        } => put_procedure(alloc, symbols, *left, *first, *count as u32),
        Stmt::If { subject, .. } => {
            symbols.put(Symbol::Then)?;
            symbols.put_name(alloc, *subject)?;
            symbols.put(Symbol::If)
        }
        Stmt::Case {
            subject,
            pattern,
            first,
            ..
        } => put_case(alloc, symbols, *subject, pattern, *first),
        Stmt::Thread { at, .. } => put_thread(symbols, at),
        Stmt::Try { .. } => symbols.put(Symbol::Try),
        _ => put_plain(alloc, symbols, stmt),
    }
}

fn put_local(alloc: Global, symbols: &mut Symbols, first: u32, count: u32) -> Result<(), AllocError>
    requires some { 1 ≤ count }
    requires fits { first + count < 2 ^ 32 }
    ensures { OnOk result (symbols.new ≡ opening_text (local_opening first count) symbols.old) }
{
    symbols.put(Symbol::In)?;
    symbols.put_names_from(alloc, first + 1, count - 1)?;
    symbols.put_name(alloc, first)?;
    symbols.put(Symbol::Local)
}

fn put_procedure(
    alloc: Global,
    symbols: &mut Symbols,
    left: u32,
    first: u32,
    count: u32,
) -> Result<(), AllocError>
    requires { first + count < 2 ^ 32 }
    ensures { OnOk result (symbols.new ≡ opening_text (ProcValue (name_at left) (names_from first count)) symbols.old) }
{
    symbols.put(Symbol::CloseCurly)?;
    symbols.put_names_from(alloc, first, count)?;
    symbols.put(Symbol::Dollar)?;
    symbols.put(Symbol::OpenCurly)?;
    symbols.put(Symbol::Proc)?;
    put_tell(alloc, symbols, left)
}

fn put_case(
    alloc: Global,
    symbols: &mut Symbols,
    subject: u32,
    pattern: &Pattern,
    first: u32,
) -> Result<(), AllocError>
    requires { first + length (features_in pattern.now) < 2 ^ 32 }
    ensures { OnOk result (symbols.new ≡ choice_text (Cases (name_at subject) (pattern_tree first pattern.now)) symbols.old) }
{
    symbols.put(Symbol::Then)?;
    symbols.put_pattern(alloc, first, pattern)?;
    symbols.put(Symbol::Of)?;
    symbols.put_name(alloc, subject)?;
    symbols.put(Symbol::Case)
}

fn put_thread(symbols: &mut Symbols, at: &Option<Integer>) -> Result<(), AllocError>
    ensures { OnOk result (symbols.new ≡ opening_text (thread_opening at.now) symbols.old) }
{
    if let Some(site) = at {
        symbols.put(Symbol::Integer(Some(Numeral::new(site.get()))))?;
        symbols.put(Symbol::At)?;
    }
    symbols.put(Symbol::Thread)
}

// ---- statements without bodies

fn put_plain(alloc: Global, symbols: &mut Symbols, stmt: &Stmt) -> Result<(), AllocError>
    requires { bodies_of stmt.now ≡ [] }
    ensures { OnOk result (symbols.new ≡ row_symbols (λ c rest. symbols.old) stmt.now symbols.old) }
{
    match stmt {
        Stmt::Skip => symbols.put(Symbol::Skip),
        Stmt::TellVar { left, right } => put_tell_variable(alloc, symbols, *left, *right),
        Stmt::TellInt { left, value } => put_tell_integer(alloc, symbols, *left, value),
        Stmt::TellAtom { left, text } => put_tell_atom(alloc, symbols, *left, text),
        Stmt::TellRec {
            left,
            label,
            fields,
        } => put_tell_record(alloc, symbols, *left, label, fields.as_slice()),
        Stmt::Calc { left, op, a, b } => put_tell_result(alloc, symbols, *left, *op, *a, *b),
        Stmt::Test { left, op, a, b } => put_tell_test(alloc, symbols, *left, *op, *a, *b),
        Stmt::Select { left, source, by } => put_tell_field(alloc, symbols, *left, *source, by),
        Stmt::Call { callee, args } => put_call(alloc, symbols, *callee, args.as_slice()),
        Stmt::Browse(shown) => put_built_in(alloc, symbols, b"Browse", &[*shown]),
        Stmt::Wait(subject) => put_built_in(alloc, symbols, b"Wait", &[*subject]),
        Stmt::NewCell { content, cell } => put_built_in(
            alloc,
            symbols,
            b"NewCell",
            &[*content, *cell],
        ),
        Stmt::Exchange { cell, old, new } => {
            put_built_in(alloc, symbols, b"Exchange", &[*cell, *old, *new])
        }
        Stmt::NewPort { stream, port } => {
            put_built_in(alloc, symbols, b"NewPort", &[*stream, *port])
        }
        Stmt::Send { port, value } => put_built_in(alloc, symbols, b"Send", &[*port, *value]),
        Stmt::NewCellAt { content, cell, at } => {
            put_built_in(alloc, symbols, b"NewCellAt", &[*content, *cell, *at])
        }
        Stmt::Raise(subject) => put_raise(alloc, symbols, *subject),
        _ => Ok(()),
    }
}

// X =
fn put_tell(alloc: Global, symbols: &mut Symbols, left: u32) -> Result<(), AllocError>
    ensures { OnOk result (symbols.new ≡ t.Variable (name_at left) ∷ t.Equals ∷ symbols.old) }
{
    symbols.put(Symbol::Equals)?;
    symbols.put_name(alloc, left)
}

fn put_tell_variable(
    alloc: Global,
    symbols: &mut Symbols,
    left: u32,
    right: u32,
) -> Result<(), AllocError>
    ensures { OnOk result (symbols.new ≡ plain_text (tell_statement left (ToVar (name_at right))) symbols.old) }
{
    symbols.put_name(alloc, right)?;
    put_tell(alloc, symbols, left)
}

fn put_tell_integer(
    alloc: Global,
    symbols: &mut Symbols,
    left: u32,
    value: &Integer,
) -> Result<(), AllocError>
    ensures { OnOk result (symbols.new ≡ plain_text (tell_statement left (ToInt (Some value.now))) symbols.old) }
{
    symbols.put(Symbol::Integer(Some(Numeral::new(value.get()))))?;
    put_tell(alloc, symbols, left)
}

fn put_tell_atom(
    alloc: Global,
    symbols: &mut Symbols,
    left: u32,
    atom: &Text,
) -> Result<(), AllocError>
    ensures { OnOk result (symbols.new ≡ plain_text (tell_statement left (ToAtom atom.now)) symbols.old) }
{
    symbols.put_atom(atom)?;
    put_tell(alloc, symbols, left)
}

fn put_tell_record(
    alloc: Global,
    symbols: &mut Symbols,
    left: u32,
    label: &Text,
    fields: &[(Feature, u32)],
) -> Result<(), AllocError>
    ensures { OnOk result (symbols.new ≡ plain_text (tell_statement left (ToRecord label.now (map slot_field fields.now))) symbols.old) }
{
    symbols.put(Symbol::CloseRound)?;
    symbols.put_fields(alloc, fields)?;
    symbols.put(Symbol::OpenRound)?;
    symbols.put_atom(label)?;
    put_tell(alloc, symbols, left)
}

fn put_tell_result(
    alloc: Global,
    symbols: &mut Symbols,
    left: u32,
    operator: Op,
    a: u32,
    b: u32,
) -> Result<(), AllocError>
    ensures { OnOk result (symbols.new ≡ plain_text (tell_statement left (Calculates (name_at a) operator (name_at b))) symbols.old) }
{
    symbols.put_name(alloc, b)?;
    symbols.put(Symbol::Operator(operator))?;
    symbols.put_name(alloc, a)?;
    put_tell(alloc, symbols, left)
}

fn put_tell_test(
    alloc: Global,
    symbols: &mut Symbols,
    left: u32,
    test: TestOp,
    a: u32,
    b: u32,
) -> Result<(), AllocError>
    ensures { OnOk result (symbols.new ≡ plain_text (tell_statement left (Tests (name_at a) test (name_at b))) symbols.old) }
{
    symbols.put_name(alloc, b)?;
    symbols.put(Symbol::Test(test))?;
    symbols.put_name(alloc, a)?;
    put_tell(alloc, symbols, left)
}

fn put_tell_field(
    alloc: Global,
    symbols: &mut Symbols,
    left: u32,
    source: u32,
    by: &Selector,
) -> Result<(), AllocError>
    ensures { OnOk result (symbols.new ≡ plain_text (tell_statement left (Selects (name_at source) (selection_of by.now))) symbols.old) }
{
    match by {
        Selector::Var(position) => symbols.put_name(alloc, *position)?,
        Selector::Feature(feature) => symbols.put_feature(feature)?,
    }
    symbols.put(Symbol::Dot)?;
    symbols.put_name(alloc, source)?;
    put_tell(alloc, symbols, left)
}

fn put_raise(alloc: Global, symbols: &mut Symbols, subject: u32) -> Result<(), AllocError>
    ensures { OnOk result (symbols.new ≡ plain_text (Raises (name_at subject)) symbols.old) }
{
    symbols.put(Symbol::End)?;
    symbols.put_name(alloc, subject)?;
    symbols.put(Symbol::Raise)
}

fn put_call(
    alloc: Global,
    symbols: &mut Symbols,
    callee: u32,
    positions: &[u32],
) -> Result<(), AllocError>
    ensures { OnOk result (symbols.new ≡ t.OpenCurly ∷ t.Variable (name_at callee) ∷ names_text (map name_at positions.now) (t.CloseCurly ∷ symbols.old)) }
{
    symbols.put(Symbol::CloseCurly)?;
    symbols.put_names(alloc, positions)?;
    symbols.put_name(alloc, callee)?;
    symbols.put(Symbol::OpenCurly)
}

// A call of a built-in procedure.
fn put_built_in(
    alloc: Global,
    symbols: &mut Symbols,
    name: &[u8],
    positions: &[u32],
) -> Result<(), AllocError>
    ensures { OnOk result (symbols.new ≡ t.OpenCurly ∷ t.Variable name.now ∷ names_text (map name_at positions.now) (t.CloseCurly ∷ symbols.old)) }
{
    symbols.put(Symbol::CloseCurly)?;
    symbols.put_names(alloc, positions)?;
    symbols.put_built_in(alloc, name)?;
    symbols.put(Symbol::OpenCurly)
}
