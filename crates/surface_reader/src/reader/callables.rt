//! Procedures and functions.

ghost use Rattle.std.specs.Prelude.{◌<◌, OnOk};
ghost use Rattle.kernel_syntax.specs.SugarView.{value_of, statement_of};
ghost use Rattle.oz_phrases.specs.ReadAnswers.{IsReadAs};
ghost use Rattle.surface_grammar.specs.Reading.{callable_at, callable_body_at, callable_value_at, callable_statement_at};
ghost use Rattle.surface_reader.specs.State.{IsBehind};
ghost use Rattle.surface_reader.specs.Levels.{readers};

use super::Reader;
use kernel_syntax::sugar::{Statement, Value};
use oz_grammar::{Sign, What};
use oz_phrases::{Stop, used_variable};
use surface_grammar::Callable;
use surface_parts::{function, procedure};

impl<'t> Reader<'t> {
    /// One as a value, behind its word.
    #[cycle(reader)]
    pub(super) fn callable_value(
        &mut self,
        depth: u32,
        callable: Callable,
        left: usize,
    ) -> Result<Value, Stop>
        ensures read { IsReadAs (λ v. (value_of v, self.new.rest)) result (callable_value_at (readers depth) callable self.old.scope left self.old.rest) }
        ensures moves { OnOk result (IsBehind self.old self.new) }
    {
        self.sign(Sign::OpenCurly)?;
        self.sign(Sign::Dollar)?;
        self.callable(depth, callable, left)
    }

    /// One as a statement, behind its word: it is told to its name.
    #[cycle(reader)]
    pub(super) fn callable_statement(
        &mut self,
        depth: u32,
        callable: Callable,
        left: usize,
    ) -> Result<Statement, Stop>
        ensures read { IsReadAs (λ s. (statement_of s, self.new.rest)) result (callable_statement_at (readers depth) callable self.old.scope left self.old.rest) }
        ensures moves { OnOk result (IsBehind self.old self.new) }
    {
        self.sign(Sign::OpenCurly)?;
        let (told, behind) = used_variable(What::Variable, &self.scope, self.rest)?;
        self.rest = behind;
        let value = self.callable(depth, callable, left)?;
        Ok(Statement::Tell(left, told, value))
    }

    /// The formals and the body.
    #[cycle(reader)]
    #[tactic(auto, using(crate::proofs::Declared::joined))]
    fn callable(&mut self, depth: u32, callable: Callable, left: usize) -> Result<Value, Stop>
        ensures read { IsReadAs (λ v. (value_of v, self.new.rest)) result (callable_at (readers depth) callable self.old.scope left self.old.rest) }
        ensures moves { OnOk result (IsBehind self.old self.new) }
    {
        let outer = self.scope.len();
        self.formals(callable)?;
        let count = (self.scope.len() - outer) as u8;
        let value = self.callable_body(depth, callable, left, count)?;
        self.scope.truncate(outer);
        Ok(value)
    }

    /// The body, under the formals.
    #[cycle(reader)]
    fn callable_body(
        &mut self,
        depth: u32,
        callable: Callable,
        left: usize,
        count: u8,
    ) -> Result<Value, Stop>
        ensures read { IsReadAs (λ v. (value_of v, self.new.rest)) result (callable_body_at (readers depth) callable self.old.scope left count self.old.rest) }
        ensures moves { OnOk result (IsBehind self.old self.new) }
    {
        match callable {
            Callable::OfProc => {
                let body = self.body(depth)?;
                Ok(procedure(left, count, body))
            }
            Callable::OfFun => {
                let body = self.value(depth, None, What::Value)?;
                self.sign(Sign::End)?;
                Ok(function(self.alloc, left, count, body)?)
            }
        }
    }
}
