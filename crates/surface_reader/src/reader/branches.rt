//! Values and statements with branches, clauses and handlers.

ghost use Rattle.std.specs.Prelude.{◌≡◌, ◌+◌, ◌<◌, ◌^◌, length, take, OnOk};
ghost use Rattle.kernel_syntax.specs.Sugar.{no_clauses, no_cases};
ghost use Rattle.kernel_syntax.specs.SugarView.{value_of, value_clauses_in, statement_of, statements_in, clauses_in};
ghost use Rattle.oz_phrases.specs.ReadAnswers.{IsReadAs};
ghost use Rattle.surface_grammar.specs.Reading.{if_value_at, case_value_at, value_clauses_at, value_clause_at, clause_head_at, if_at, case_at, clauses_at, clause_at, try_at, handler_at, handler_end_at};
ghost use Rattle.surface_reader.specs.State.{IsBehind, IsNotBefore};
ghost use Rattle.surface_reader.specs.Levels.{read_value, read_statement};

use super::Reader;
use kernel_syntax::Pattern;
use kernel_syntax::sugar::{Clause, Statement, Value, ValueClause};
use oz_grammar::{Sign, Symbol, What};
use oz_phrases::{Stop, catch_name, mismatch, pattern};
use surface_grammar::Closer;
use surface_parts::{
    case_statement, case_value, finally, if_statement, if_value, is_clause, is_end_of, push_clause,
    push_value_clause, try_statement,
};

impl<'t> Reader<'t> {
    /// An `if` as a value, behind that word. It is not inlined, so that other values do without the stack memory that it needs.
    #[cycle(reader)]
    #[inline(never)]
    pub(super) fn if_value(&mut self, depth: u32, left: usize) -> Result<Value, Stop>
        ensures read { IsReadAs (λ v. (value_of v, self.new.rest)) result (if_value_at (read_value depth) self.old.scope left self.old.rest) }
        ensures moves { OnOk result (IsBehind self.old self.new) }
    {
        let tested = self.value(depth, None, What::Value)?;
        self.sign(Sign::Then)?;
        let chosen = self.value(depth, None, What::Value)?;
        self.sign(Sign::Else)?;
        let other = self.value(depth, None, What::Value)?;
        self.sign(Sign::End)?;
        Ok(if_value(self.alloc, left, tested, chosen, other)?)
    }

    /// A `case` as a value, behind that word. It is not inlined, so that other values do without the stack memory that it needs.
    #[cycle(reader)]
    #[inline(never)]
    pub(super) fn case_value(&mut self, depth: u32, left: usize) -> Result<Value, Stop>
        ensures read { IsReadAs (λ v. (value_of v, self.new.rest)) result (case_value_at (read_value depth) self.old.scope left self.old.rest) }
        ensures moves { OnOk result (IsBehind self.old self.new) }
    {
        let matched = self.value(depth, None, What::Value)?;
        self.sign(Sign::Of)?;
        let clauses = self.value_clauses(depth)?;
        let other = self.value(depth, None, What::Value)?;
        self.sign(Sign::End)?;
        Ok(case_value(self.alloc, left, matched, clauses, other)?)
    }

    /// The clauses of values, up to `else`.
    #[cycle(reader)]
    #[tactic(auto, using(crate::proofs::Unfold::value_clauses_none, crate::proofs::Unfold::value_clauses_some))]
    fn value_clauses(&mut self, depth: u32) -> Result<Vec<ValueClause>, Stop>
        ensures read { IsReadAs (λ v. (value_clauses_in v.items, self.new.rest)) result (value_clauses_at (read_value depth) self.old.scope (length self.old.rest + 1) no_clauses self.old.rest) }
        ensures moves { OnOk result (IsBehind self.old self.new) }
    {
        let mut clauses = Vec::new(self.alloc);
        let mut room = self.rest.len() + 1;
        while room > 0 {
            let (pattern, value) = self.value_clause(depth)?;
            push_value_clause(&mut clauses, pattern, value)?;
            if is_end_of(Closer::Else, self.rest) {
                self.advance();
                return Ok(clauses);
            }
            if !is_clause(self.rest) {
                return Err(mismatch(What::ClauseOrElse, self.rest));
            }
            self.advance();
            room -= 1;
        }
        Err(mismatch(What::Pattern, self.rest))
    }

    /// A clause of a value.
    #[cycle(reader)]
    fn value_clause(&mut self, depth: u32) -> Result<(Pattern, Value), Stop>
        ensures read { IsReadAs (λ c. ((c.0, value_of c.1), self.new.rest)) result (value_clause_at (read_value depth) self.old.scope self.old.rest) }
        ensures moves { OnOk result (IsBehind self.old self.new) }
    {
        let outer = self.scope.len();
        let pattern = self.clause_head()?;
        let value = self.value(depth, None, What::Value)?;
        self.scope.truncate(outer);
        Ok((pattern, value))
    }

    /// A pattern and `then`: the names of the pattern are declared behind it.
    fn clause_head(&mut self) -> Result<Pattern, Stop>
        ensures read { IsReadAs (λ p. (p, self.new.scope, self.new.rest)) result (clause_head_at self.old.scope self.old.rest) }
        ensures names { OnOk result (take (length self.old.scope) self.new.scope ≡ self.old.scope) }
        ensures moves { OnOk result (length self.new.rest < length self.old.rest) }
    {
        let (pattern, names, rest) = pattern(self.alloc, &self.scope, self.rest)?;
        self.open(names.as_slice(), rest)?;
        self.sign(Sign::Then)?;
        Ok(pattern)
    }

    /// An `if`, behind that word.
    #[cycle(reader)]
    pub(super) fn if_statement(&mut self, inner: u32, left: usize) -> Result<Statement, Stop>
        requires { inner + 1 < 2 ^ 32 }
        ensures read { IsReadAs (λ s. (statement_of s, self.new.rest)) result (if_at (read_value (inner + 1)) (read_statement inner) self.old.scope left self.old.rest) }
        ensures moves { OnOk result (IsBehind self.old self.new) }
    {
        let tested = self.value(inner + 1, None, What::Value)?;
        self.sign(Sign::Then)?;
        let chosen = self.closed(inner, Closer::Else, What::Statement)?;
        let other = self.body(inner)?;
        Ok(if_statement(left, tested, chosen, other))
    }

    /// A `case`, behind that word.
    #[cycle(reader)]
    pub(super) fn case_statement(&mut self, inner: u32, left: usize) -> Result<Statement, Stop>
        requires { inner + 1 < 2 ^ 32 }
        ensures read { IsReadAs (λ s. (statement_of s, self.new.rest)) result (case_at (read_value (inner + 1)) (read_statement inner) self.old.scope left self.old.rest) }
        ensures moves { OnOk result (IsBehind self.old self.new) }
    {
        let matched = self.value(inner + 1, None, What::Value)?;
        self.sign(Sign::Of)?;
        let clauses = self.clauses(inner)?;
        let other = self.body(inner)?;
        Ok(case_statement(left, matched, clauses, other))
    }

    /// The clauses of statements, up to `else`.
    #[cycle(reader)]
    #[tactic(auto, using(crate::proofs::Unfold::clauses_none, crate::proofs::Unfold::clauses_some))]
    fn clauses(&mut self, depth: u32) -> Result<Vec<Clause>, Stop>
        ensures read { IsReadAs (λ v. (clauses_in v.items, self.new.rest)) result (clauses_at (read_statement depth) self.old.scope (length self.old.rest + 1) no_cases self.old.rest) }
        ensures moves { OnOk result (IsBehind self.old self.new) }
    {
        let mut clauses = Vec::new(self.alloc);
        let mut room = self.rest.len() + 1;
        while room > 0 {
            let (pattern, body) = self.clause(depth)?;
            push_clause(&mut clauses, pattern, body)?;
            if !is_clause(self.rest) {
                self.advance();
                return Ok(clauses);
            }
            self.advance();
            room -= 1;
        }
        Err(mismatch(What::Pattern, self.rest))
    }

    /// A clause of a statement, up to what follows it.
    #[cycle(reader)]
    fn clause(&mut self, depth: u32) -> Result<(Pattern, Vec<Statement>), Stop>
        ensures read { IsReadAs (λ c. ((c.0, statements_in c.1.items), self.new.rest)) result (clause_at (read_statement depth) self.old.scope self.old.rest) }
        ensures moves { OnOk result (IsBehind self.old self.new) }
    {
        let outer = self.scope.len();
        let pattern = self.clause_head()?;
        let body = self.sequence(depth, Closer::OfClause, What::Statement)?;
        self.scope.truncate(outer);
        Ok((pattern, body))
    }

    /// A `try`, behind that word.
    #[cycle(reader)]
    pub(super) fn try_statement(&mut self, depth: u32, left: usize) -> Result<Statement, Stop>
        ensures read { IsReadAs (λ s. (statement_of s, self.new.rest)) result (try_at (read_statement depth) self.old.scope left self.old.rest) }
        ensures moves { OnOk result (IsBehind self.old self.new) }
    {
        let body = self.sequence(depth, Closer::OfTry, What::Statement)?;
        match self.rest {
            [Symbol::Catch, rest @ ..] => {
                self.rest = rest;
                let handler = self.handler(depth)?;
                self.behind_handler(depth, left, body, handler)
            }
            _ => {
                self.advance();
                let last = self.body(depth)?;
                Ok(finally(left, body, last))
            }
        }
    }

    /// A handler under its name, behind `catch`, up to what follows it.
    #[cycle(reader)]
    fn handler(&mut self, depth: u32) -> Result<Vec<Statement>, Stop>
        ensures read { IsReadAs (λ q. (statements_in q.items, self.new.rest)) result (handler_at (read_statement depth) self.old.scope self.old.rest) }
        ensures moves { OnOk result (IsBehind self.old self.new) }
    {
        let outer = self.scope.len();
        let (name, rest) = catch_name(self.rest)?;
        self.open(&[name], rest)?;
        self.sign(Sign::Then)?;
        let handler = self.sequence(depth, Closer::OfHandler, What::Statement)?;
        self.scope.truncate(outer);
        Ok(handler)
    }

    /// The `try` of these statements and this handler, with the statements behind `finally`, if they follow.
    #[cycle(reader)]
    fn behind_handler(
        &mut self,
        depth: u32,
        left: usize,
        body: Vec<Statement>,
        handler: Vec<Statement>,
    ) -> Result<Statement, Stop>
        ensures read { IsReadAs (λ s. (statement_of s, self.new.rest)) result (handler_end_at (read_statement depth) self.old.scope left (statements_in body.items) (statements_in handler.items) self.old.rest) }
        ensures moves { OnOk result (IsNotBefore self.old self.new) }
    {
        let tried = try_statement(left, body, handler);
        match self.rest {
            [Symbol::Finally, rest @ ..] => {
                self.rest = rest;
                let last = self.body(depth)?;
                let all = vec![in self.alloc; tried]?;
                Ok(finally(left, all, last))
            }
            _ => {
                self.advance();
                Ok(tried)
            }
        }
    }
}
