//! Statements and sequences.

ghost use Rattle.std.specs.Prelude.{◌+◌, ◌<◌, ◌^◌, length, OnOk};
ghost use Rattle.kernel_syntax.specs.Sugar.{no_statements, statement_and};
ghost use Rattle.kernel_syntax.specs.SugarView.{statement_of, statements_in};
ghost use Rattle.oz_phrases.specs.ReadAnswers.{IsReadAs};
ghost use Rattle.surface_grammar.specs.Reading.{kind_at, block_at, tell_at, raise_at, local_at, thread_at, body_at, closed_at, sequence_at, others_at};
ghost use Rattle.surface_reader.specs.State.{IsBehind, IsNotBefore};
ghost use Rattle.surface_reader.specs.Levels.{read_value, read_statement, readers};

use super::Reader;
use kernel_syntax::sugar::Statement;
use oz_grammar::{Sign, Symbol, What};
use oz_phrases::{Stop, mismatch, site, used_variable};
use surface_grammar::{Callable, Closer};
use surface_parts::{
    expected_behind, first_statement, is_at_statement, is_end_of, local, one_statement,
    push_statement, raise, thread,
};
use tree_node::Integer;

impl<'t> Reader<'t> {
    /// A statement with so many levels, where this is expected if none begins.
    #[cycle(reader)]
    #[tactic(auto, using(crate::proofs::Steps::statement_is))]
    fn statement(&mut self, depth: u32, what: What) -> Result<Statement, Stop>
        ensures read { IsReadAs (λ s. (statement_of s, self.new.rest)) result (read_statement depth self.old.scope what self.old.rest) }
        ensures moves { OnOk result (IsBehind self.old self.new) }
    {
        if !is_at_statement(self.rest) {
            return Err(mismatch(what, self.rest));
        }
        let inner = self.level(depth, None)?;
        self.kind(inner)
    }

    /// A statement whose bodies have so many levels, its values one more.
    #[cycle(reader)]
    fn kind(&mut self, inner: u32) -> Result<Statement, Stop>
        requires { inner + 1 < 2 ^ 32 }
        ensures read { IsReadAs (λ s. (statement_of s, self.new.rest)) result (kind_at (read_value (inner + 1)) (readers inner) self.old.scope self.old.rest) }
        ensures moves { OnOk result (IsBehind self.old self.new) }
    {
        let left = self.rest.len();
        match self.rest {
            [Symbol::Variable(_), ..] => self.tell(inner + 1, left),
            [Symbol::OpenCurly, rest @ ..] => {
                self.rest = rest;
                self.call_statement(inner + 1, left)
            }
            [Symbol::Raise, rest @ ..] => {
                self.rest = rest;
                self.raise(inner + 1, left)
            }
            [Symbol::If, rest @ ..] => {
                self.rest = rest;
                self.if_statement(inner, left)
            }
            [Symbol::Case, rest @ ..] => {
                self.rest = rest;
                self.case_statement(inner, left)
            }
            _ => self.block(inner, left),
        }
    }

    /// A statement that holds no values of its own.
    #[cycle(reader)]
    fn block(&mut self, inner: u32, left: usize) -> Result<Statement, Stop>
        ensures read { IsReadAs (λ s. (statement_of s, self.new.rest)) result (block_at (readers inner) self.old.scope left self.old.rest) }
        ensures moves { OnOk result (IsBehind self.old self.new) }
    {
        match self.rest {
            [Symbol::Skip, rest @ ..] => {
                self.rest = rest;
                Ok(Statement::Skip(left))
            }
            [Symbol::Local, rest @ ..] => {
                self.rest = rest;
                self.local(inner, left)
            }
            [Symbol::Proc, rest @ ..] => {
                self.rest = rest;
                self.callable_statement(inner, Callable::OfProc, left)
            }
            [Symbol::Fun, rest @ ..] => {
                self.rest = rest;
                self.callable_statement(inner, Callable::OfFun, left)
            }
            [Symbol::Thread, rest @ ..] => {
                self.rest = rest;
                self.thread(inner, left)
            }
            [Symbol::Try, rest @ ..] => {
                self.rest = rest;
                self.try_statement(inner, left)
            }
            _ => Err(mismatch(What::Statement, self.rest)),
        }
    }

    /// A tell.
    #[cycle(reader)]
    fn tell(&mut self, depth: u32, left: usize) -> Result<Statement, Stop>
        ensures read { IsReadAs (λ s. (statement_of s, self.new.rest)) result (tell_at (read_value depth) self.old.scope left self.old.rest) }
        ensures moves { OnOk result (IsBehind self.old self.new) }
    {
        let (told, behind) = used_variable(What::Statement, &self.scope, self.rest)?;
        self.rest = behind;
        self.sign(Sign::Equals)?;
        let value = self.value(depth, None, What::Value)?;
        Ok(Statement::Tell(left, told, value))
    }

    /// A `raise`, behind that word.
    #[cycle(reader)]
    fn raise(&mut self, depth: u32, left: usize) -> Result<Statement, Stop>
        ensures read { IsReadAs (λ s. (statement_of s, self.new.rest)) result (raise_at (read_value depth) self.old.scope left self.old.rest) }
        ensures moves { OnOk result (IsBehind self.old self.new) }
    {
        let value = self.value(depth, None, What::Value)?;
        self.sign(Sign::End)?;
        Ok(raise(self.alloc, left, value)?)
    }

    /// A `local`, behind that word.
    #[cycle(reader)]
    #[tactic(auto, using(crate::proofs::Declared::joined))]
    fn local(&mut self, depth: u32, left: usize) -> Result<Statement, Stop>
        ensures read { IsReadAs (λ s. (statement_of s, self.new.rest)) result (local_at (read_statement depth) self.old.scope left self.old.rest) }
        ensures moves { OnOk result (IsBehind self.old self.new) }
    {
        let outer = self.scope.len();
        self.first_local()?;
        let count = self.scope.len() - outer;
        let body = self.body(depth)?;
        self.scope.truncate(outer);
        Ok(local(left, count as u32, body))
    }

    /// A thread, behind that word.
    #[cycle(reader)]
    fn thread(&mut self, depth: u32, left: usize) -> Result<Statement, Stop>
        ensures read { IsReadAs (λ s. (statement_of s, self.new.rest)) result (thread_at (read_statement depth) self.old.scope left self.old.rest) }
        ensures moves { OnOk result (IsBehind self.old self.new) }
    {
        match self.rest {
            [Symbol::At, rest @ ..] => {
                let (at, behind) = site(rest)?;
                self.rest = behind;
                let body = self.body(depth)?;
                Ok(thread(left, Some(Integer::new(at)), body))
            }
            _ => {
                let body = self.closed(depth, Closer::End, What::StatementOrAt)?;
                Ok(thread(left, None, body))
            }
        }
    }

    /// A body up to `end`.
    #[cycle(reader)]
    pub(super) fn body(&mut self, depth: u32) -> Result<Vec<Statement>, Stop>
        ensures read { IsReadAs (λ q. (statements_in q.items, self.new.rest)) result (body_at (read_statement depth) self.old.scope self.old.rest) }
        ensures moves { OnOk result (IsBehind self.old self.new) }
    {
        self.closed(depth, Closer::End, What::Statement)
    }

    /// A sequence with the one symbol that closes it.
    #[cycle(reader)]
    pub(super) fn closed(
        &mut self,
        depth: u32,
        closer: Closer,
        what: What,
    ) -> Result<Vec<Statement>, Stop>
        ensures read { IsReadAs (λ q. (statements_in q.items, self.new.rest)) result (closed_at (read_statement depth) closer self.old.scope what self.old.rest) }
        ensures moves { OnOk result (IsBehind self.old self.new) }
    {
        let statements = self.sequence(depth, closer, what)?;
        self.advance();
        Ok(statements)
    }

    /// A sequence up to what closes it. Most have one statement: they do without a list that grows.
    #[cycle(reader)]
    #[tactic(auto, using(crate::proofs::Unfold::others_end))]
    pub(super) fn sequence(
        &mut self,
        depth: u32,
        closer: Closer,
        what: What,
    ) -> Result<Vec<Statement>, Stop>
        ensures read { IsReadAs (λ q. (statements_in q.items, self.new.rest)) result (sequence_at (read_statement depth) closer self.old.scope what self.old.rest) }
        ensures moves { OnOk result (IsBehind self.old self.new) }
    {
        let first = self.statement(depth, what)?;
        if is_end_of(closer, self.rest) {
            return Ok(one_statement(self.alloc, first)?);
        }
        self.others(depth, closer, first)
    }

    /// The statements of a sequence, of which the first is read, up to what closes it.
    #[cycle(reader)]
    #[tactic(auto, using(crate::proofs::Unfold::others_none, crate::proofs::Unfold::others_some))]
    fn others(
        &mut self,
        depth: u32,
        closer: Closer,
        first: Statement,
    ) -> Result<Vec<Statement>, Stop>
        ensures read { IsReadAs (λ q. (statements_in q.items, self.new.rest)) result (others_at (read_statement depth) closer self.old.scope (length self.old.rest + 1) (statement_and (statement_of first) no_statements) self.old.rest) }
        ensures moves { OnOk result (IsNotBefore self.old self.new) }
    {
        let mut statements = first_statement(self.alloc, first)?;
        let mut room = self.rest.len() + 1;
        while room > 0 {
            if is_end_of(closer, self.rest) {
                return Ok(statements);
            }
            let next = self.statement(depth, expected_behind(closer))?;
            push_statement(&mut statements, next)?;
            room -= 1;
        }
        Err(mismatch(expected_behind(closer), self.rest))
    }
}
