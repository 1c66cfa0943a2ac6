//! The reader of values and statements.

ghost use Rattle.std.specs.Prelude.{◌≡◌, ◌+◌, ◌<◌, ◌≤◌, ◌^◌, ◌++◌, ◌∷◌, [], length, drop, None, OnOk};
ghost use Rattle.kernel_syntax.specs.SugarView.{statements_in};
ghost use Rattle.oz_grammar.specs.Reading.{sign_at};
ghost use Rattle.oz_phrases.specs.ReadAnswers.{IsReadAs};
ghost use Rattle.surface_grammar.specs.Reading.{program_at};
ghost use Rattle.surface_reader.specs.State.{state_of, IsBehind};
ghost use Rattle.surface_reader.specs.Levels.{IsLevel, IsInside};

use kernel_syntax::sugar::Statement;
use oz_grammar::{FaultKind, Sign, Symbol, What};
use oz_phrases::{Scope, Stop, fault, sign};
use std::alloc::{AllocError, Global};
use std::marker::Model;
use surface_grammar::Closer;
use surface_parts::behind;
use tree_node::Text;

mod branches;
mod callables;
mod calls;
mod fields;
mod locals;
mod statements;
mod values;

/// A reader: the names declared around its place, and the symbols that are left, of which contracts see the lists. What is left
/// declares no more names than 31 bits count.
#[derive(Drop)]
struct Reader<'t> {
    alloc: Global,
    scope: Scope,
    rest: &'t [Symbol],
}

impl<'t> Model for Reader<'t> {
    ghost use Rattle.std.specs.Prelude.{◌+◌, ◌^◌, ◌<◌, length};
    ghost use Rattle.surface_reader.specs.State.{State, state_of};

    ghost Value = { State };

    ghost view = { λ r. state_of r.scope r.rest.now };

    ghost invariant = { λ r. length r.scope + length r.rest.now < 2 ^ 31 };
}

impl<'t> Reader<'t> {
    /// A reader before all symbols, with nothing declared.
    fn new(alloc: Global, symbols: &'t [Symbol]) -> Reader<'t>
        requires { length symbols.now < 2 ^ 29 }
        ensures { result ≡ state_of [] symbols.now }
    {
        Reader {
            alloc,
            scope: Scope::new(alloc),
            rest: symbols,
        }
    }

    /// A symbol that stands alone at its place.
    fn sign(&mut self, expected: Sign) -> Result<(), Stop>
        ensures read { IsReadAs (λ _. self.new.rest) result (sign_at expected self.old.rest) }
        ensures moves { OnOk result (IsBehind self.old self.new) }
    {
        self.rest = sign(expected, self.rest)?;
        Ok(())
    }

    /// Goes on behind the symbol at the front.
    fn advance(&mut self)
        ensures { self.new ≡ state_of self.old.scope (drop 1 self.old.rest) }
    {
        self.rest = behind(self.rest);
    }

    /// More names around what follows, from a place on.
    fn open(&mut self, names: &[Text], rest: &'t [Symbol]) -> Result<(), AllocError>
        requires { length names.now + length rest.now ≤ length self.old.rest }
        ensures { OnOk result (self.new ≡ state_of (self.old.scope ++ names.now) rest.now) }
    {
        self.rest = rest;
        self.scope.declare_all(names)?;
        Ok(())
    }

    /// One name more around what follows, from a place on.
    fn declare(&mut self, name: &Text, rest: &'t [Symbol]) -> Result<(), AllocError>
        requires { 1 + length rest.now ≤ length self.old.rest }
        ensures { OnOk result (self.new ≡ state_of (self.old.scope ++ name.now ∷ []) rest.now) }
    {
        self.rest = rest;
        self.scope.declare(name)?;
        Ok(())
    }

    /// The levels inside what begins here and has so many, unless its holder has something wrong.
    fn level(&self, depth: u32, holder: Option<FaultKind>) -> Result<u32, Stop>
        ensures { IsLevel depth holder self.now.rest result }
    {
        if depth == 0 {
            return Err(fault(FaultKind::Deep, self.rest));
        }
        match holder {
            Some(kind) => Err(fault(kind, self.rest)),
            None => Ok(inside(depth)),
        }
    }
}

/// The levels inside what has so many.
fn inside(depth: u32) -> u32
    requires { 1 ≤ depth }
    ensures { IsInside depth result }
{
    depth - 1
}

/// The tree of the program that these symbols are (CTM section 2.6), or their first fault. Its statements have depth 1 of 200.
#[tactic(auto, using(crate::proofs::Steps::program_is))]
pub fn read_program(alloc: Global, symbols: &[Symbol]) -> Result<Vec<Statement>, Stop>
    requires { length symbols.now < 2 ^ 29 }
    ensures { IsReadAs (λ v. statements_in v.items) result (program_at symbols.now) }
{
    let mut reader = Reader::new(alloc, symbols);
    reader.sequence(200, Closer::EndOfText, What::Statement)
}
