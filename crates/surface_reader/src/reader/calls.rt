//! Calls.

ghost use Rattle.std.specs.Prelude.{◌≡◌, ◌<◌, OnOk};
ghost use Rattle.kernel_syntax.specs.Sugar.{no_values};
ghost use Rattle.kernel_syntax.specs.SugarView.{value_of, values_in, statement_of};
ghost use Rattle.oz_phrases.specs.ReadAnswers.{IsReadAs};
ghost use Rattle.surface_grammar.specs.Reading.{wanted_of, most_of_call, wanted_at, arguments_at, call_at, procedure_call_at, call_value_at, call_statement_at};
ghost use Rattle.surface_reader.specs.State.{IsBehind};
ghost use Rattle.surface_reader.specs.Levels.{read_value};

use super::Reader;
use kernel_syntax::BuiltIn;
use kernel_syntax::sugar::{Statement, Value};
use oz_grammar::{FaultKind, Symbol, What};
use oz_phrases::{Stop, arity_of, built_in_at, close, mismatch, position_or_zero, used_variable};
use surface_grammar::CallUse;
use surface_parts::{call_statement, call_value, is_close, push_value};
use tree_node::MOST_ITEMS;

/// What is called, by its name: what is built in, or the position of an identifier; and the arguments.
#[derive(Drop)]
struct Called {
    built_in: Option<BuiltIn>,
    position: u32,
    arguments: Vec<Value>,
}

/// How many arguments of what is built in are wanted.
fn wanted_of(call: CallUse, built_in: BuiltIn) -> u32
    ensures { result ≡ wanted_of call built_in }
{
    match call {
        CallUse::AsValue => arity_of(built_in).saturating_sub(1),
        CallUse::AsStatement => arity_of(built_in),
    }
}

/// How many arguments of a procedure there may be.
fn most_of_call(call: CallUse) -> u32
    ensures { result ≡ most_of_call call }
{
    match call {
        CallUse::AsValue => 63,
        CallUse::AsStatement => MOST_ITEMS,
    }
}

impl<'t> Reader<'t> {
    /// A call as a value, behind its opening bracket.
    #[cycle(reader)]
    pub(super) fn call_value(&mut self, depth: u32, left: usize) -> Result<Value, Stop>
        ensures read { IsReadAs (λ v. (value_of v, self.new.rest)) result (call_value_at (read_value depth) self.old.scope left self.old.rest) }
        ensures moves { OnOk result (IsBehind self.old self.new) }
    {
        let called = self.call(depth, CallUse::AsValue)?;
        Ok(call_value(called.built_in, left, called.position, called.arguments))
    }

    /// A call as a statement, behind its opening bracket.
    #[cycle(reader)]
    pub(super) fn call_statement(&mut self, depth: u32, left: usize) -> Result<Statement, Stop>
        ensures read { IsReadAs (λ s. (statement_of s, self.new.rest)) result (call_statement_at (read_value depth) self.old.scope left self.old.rest) }
        ensures moves { OnOk result (IsBehind self.old self.new) }
    {
        let called = self.call(depth, CallUse::AsStatement)?;
        Ok(call_statement(called.built_in, left, called.position, called.arguments))
    }

    /// What is called, behind the opening bracket.
    #[cycle(reader)]
    fn call(&mut self, depth: u32, call: CallUse) -> Result<Called, Stop>
        ensures read { IsReadAs (λ c. ((c.built_in, c.position, values_in c.arguments.items), self.new.rest)) result (call_at (read_value depth) call self.old.scope self.old.rest) }
        ensures moves { OnOk result (IsBehind self.old self.new) }
    {
        match self.rest {
            [Symbol::Variable(name), rest @ ..] => match built_in_at(&self.scope, name.as_slice()) {
                Some(built_in) => {
                    let position = position_or_zero(&self.scope, name.as_slice());
                    self.rest = rest;
                    let arguments = self.wanted(depth, wanted_of(call, built_in))?;
                    Ok(Called {
                        built_in: Some(built_in),
                        position,
                        arguments,
                    })
                }
                None => self.procedure_call(depth, call),
            },
            _ => Err(mismatch(What::Variable, self.rest)),
        }
    }

    /// What is called where it is a procedure.
    #[cycle(reader)]
    fn procedure_call(&mut self, depth: u32, call: CallUse) -> Result<Called, Stop>
        ensures read { IsReadAs (λ c. ((c.built_in, c.position, values_in c.arguments.items), self.new.rest)) result (procedure_call_at (read_value depth) call self.old.scope self.old.rest) }
        ensures moves { OnOk result (IsBehind self.old self.new) }
    {
        let (position, behind) = used_variable(What::Variable, &self.scope, self.rest)?;
        self.rest = behind;
        let arguments = self.arguments(depth, most_of_call(call))?;
        Ok(Called {
            built_in: None,
            position,
            arguments,
        })
    }

    /// So many arguments, and the bracket behind them.
    #[cycle(reader)]
    #[tactic(auto, using(crate::proofs::Unfold::wanted_none, crate::proofs::Unfold::wanted_some))]
    fn wanted(&mut self, depth: u32, count: u32) -> Result<Vec<Value>, Stop>
        ensures read { IsReadAs (λ v. (values_in v.items, self.new.rest)) result (wanted_at (read_value depth) self.old.scope count no_values self.old.rest) }
        ensures moves { OnOk result (IsBehind self.old self.new) }
    {
        let mut arguments = Vec::new(self.alloc);
        let mut missing = count;
        while missing > 0 {
            let argument = self.value(depth, None, What::Value)?;
            push_value(&mut arguments, argument)?;
            missing -= 1;
        }
        self.rest = close(self.rest)?;
        Ok(arguments)
    }

    /// The arguments of a procedure up to the bracket: at most so many.
    #[cycle(reader)]
    #[tactic(auto, using(crate::proofs::Unfold::arguments_none, crate::proofs::Unfold::arguments_some))]
    fn arguments(&mut self, depth: u32, most: u32) -> Result<Vec<Value>, Stop>
        ensures read { IsReadAs (λ v. (values_in v.items, self.new.rest)) result (arguments_at (read_value depth) self.old.scope most no_values self.old.rest) }
        ensures moves { OnOk result (IsBehind self.old self.new) }
    {
        let mut arguments = Vec::new(self.alloc);
        let mut room = most;
        loop {
            if is_close(self.rest) {
                self.advance();
                return Ok(arguments);
            }
            if room == 0 {
                self.value(depth, Some(FaultKind::Wide), What::ValueOrClose)?;
                return Ok(arguments);
            }
            let argument = self.value(depth, None, What::ValueOrClose)?;
            push_value(&mut arguments, argument)?;
            room -= 1;
        }
    }
}
