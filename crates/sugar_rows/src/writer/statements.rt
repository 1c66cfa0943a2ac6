//! What stands for statements.

ghost use Rattle.std.specs.Prelude.{◌≡◌, ◌+◌, ◌<◌, ◌≤◌, [], length, IfOk, OnOk};
ghost use Rattle.kernel_syntax.specs.declared.stmt.Stmt.TheVariants as stmt;
ghost use Rattle.kernel_syntax.specs.Scopes.{features_in};
ghost use Rattle.oz_grammar.specs.Table.{code_at};
ghost use Rattle.kernel_syntax.specs.Sugar.{Acts, Clauses};
ghost use Rattle.kernel_syntax.specs.SugarView.{value_of, values_in, statement_of, statements_in, case_and_of, clauses_in};
ghost use Rattle.sugar_rows.specs.Put.{place, declare, action_row};
ghost use Rattle.sugar_rows.specs.Writing.{add, behind, with_numbered, last_rows, write, write_one, write_statement, write_statements, write_others, write_cases, state_of, written};

use super::Writer;
use crate::leaves::action_row;
use kernel_syntax::sugar::{Action, Clause, Statement, Value};
use kernel_syntax::{Bodies, Pattern, Stmt};
use std::alloc::AllocError;
use tree_node::{CodeId, Integer};

// The site of a thread, as a statement holds it.
fn site_of(at: &Option<Integer>) -> Option<Integer>
    ensures { result ≡ at.now }
{
    match at {
        Some(site) => Some(site.copy()),
        None => None,
    }
}

impl Writer {
    /// What stands for statements.
    #[cycle(writer)]
    pub fn statements(&mut self, statements: &[Statement]) -> Result<(), AllocError>
        ensures rows { OnOk result (self.new ≡ written (write_statements (statements_in statements.now) self.old.places self.old.around self.old.rows) self.old) }
        ensures grows { OnOk result (length self.old.rows ≤ length self.new.rows) }
    {
        match statements {
            [] => self.add(Stmt::Skip),
            [only] => self.statement(only),
            [_, _, ..] => self.sequence(statements),
        }
    }

    /// What stands for two statements or more.
    #[cycle(writer)]
    fn sequence(&mut self, statements: &[Statement]) -> Result<(), AllocError>
        ensures rows { OnOk result (self.new ≡ written (with_numbered (length self.old.rows) (write_others (statements_in statements.now) self.old.places self.old.around [] (add stmt.Skip self.old.rows))) self.old) }
        ensures grows { OnOk result (length self.old.rows ≤ length self.new.rows) }
    {
        let owner = self.rows.len();
        self.add(Stmt::Skip)?;
        let mut numbers = Bodies::new(self.alloc);
        for statement in statements {
            self.room()?;
            numbers.push(CodeId(self.rows.len() as u32))?;
            self.statement(statement)?;
        }
        self.set_numbers(owner, numbers);
        Ok(())
    }

    /// What stands for a statement.
    #[cycle(writer)]
    fn statement(&mut self, statement: &Statement) -> Result<(), AllocError>
        ensures rows { OnOk result (self.new ≡ written (write_statement (statement_of statement.now) self.old.places self.old.around self.old.rows) self.old) }
        ensures grows { OnOk result (length self.old.rows ≤ length self.new.rows) }
    {
        match statement {
            Statement::Skip(_) => self.add(Stmt::Skip),
            Statement::Tell(_, identifier, value) => self.put_tell(*identifier, value),
            Statement::Apply(_, action, parts) => self.act(*action, parts.as_slice()),
            Statement::Local(_, count, body) => self.put_local(*count, body.as_slice()),
            Statement::Thread(_, at, body) => self.put_thread(at, body.as_slice()),
            Statement::If(_, subject, yes, no) => {
                let outer = self.around;
                let tested = self.hold(subject)?;
                self.put_yes(tested, yes.as_slice())?;
                self.statements(no.as_slice())?;
                self.around = outer;
                Ok(())
            }
            Statement::Try(_, body, handler) => {
                self.put_tried(body.as_slice())?;
                self.put_handler(handler.as_slice())
            }
            Statement::Case(_, subject, clauses, no) => {
                let outer = self.around;
                let tested = self.hold(subject)?;
                if clauses.is_empty() {
                    return self.put_skip(outer);
                }
                self.cases(clauses.as_slice(), tested)?;
                self.statements(no.as_slice())?;
                self.around = outer;
                Ok(())
            }
            Statement::Finally(_, body, last) => {
                let outer = self.around;
                let owner = self.rows.len() + 1;
                let tried = self.put_last(last.as_slice())?;
                self.put_tried(body.as_slice())?;
                self.end_finally(outer, owner, tried)
            }
        }
    }

    /// A `skip`, behind which so many declarations stay.
    fn put_skip(&mut self, outer: u32) -> Result<(), AllocError>
        ensures rows { OnOk result (self.new ≡ state_of (add stmt.Skip self.old.rows) self.old.places outer) }
        ensures grows { OnOk result (length self.old.rows ≤ length self.new.rows) }
    {
        self.add(Stmt::Skip)?;
        self.around = outer;
        Ok(())
    }

    /// What stands for a value that is told to an identifier.
    #[cycle(writer)]
    fn put_tell(&mut self, identifier: u32, value: &Value) -> Result<(), AllocError>
        ensures rows { OnOk result (self.new ≡ written (write (value_of value.now) self.old.places self.old.around (place self.old.places identifier) self.old.rows) self.old) }
        ensures grows { OnOk result (length self.old.rows ≤ length self.new.rows) }
    {
        let told = self.place(identifier);
        self.put(value, told)
    }

    /// An `if` with its first branch, where the second is still to come.
    #[cycle(writer)]
    fn put_yes(&mut self, tested: u32, yes: &[Statement]) -> Result<(), AllocError>
        ensures rows { OnOk result (self.new ≡ written (write_one (stmt.If tested (behind self.old.rows) (code_at 0)) (write_statements (statements_in yes.now) self.old.places self.old.around) self.old.rows) self.old) }
        ensures grows { OnOk result (length self.old.rows ≤ length self.new.rows) }
    {
        let owner = self.rows.len();
        self.open_if(tested)?;
        self.statements(yes)?;
        self.set_second(owner)
    }

    /// What stands for the statements behind `finally`, behind the rows before them; then comes what is tried, which has this number.
    #[cycle(writer)]
    fn put_last(&mut self, last: &[Statement]) -> Result<usize, AllocError>
        ensures tried { IfOk result (λ n. n ≡ length self.new.rows) }
        ensures rows { OnOk result (self.new ≡ state_of (write_statements (statements_in last.now) self.old.places (self.old.around + 1) (last_rows self.old.around self.old.rows)) self.old.places (self.old.around + 1)) }
        ensures grows { OnOk result (length self.old.rows + 1 + 1 + 1 ≤ length self.new.rows) }
    {
        self.open_finally()?;
        self.statements(last)?;
        Ok(self.rows.len())
    }

    /// A `try` with its statements, where the handler is still to come.
    #[cycle(writer)]
    fn put_tried(&mut self, body: &[Statement]) -> Result<(), AllocError>
        ensures rows { OnOk result (self.new ≡ written (write_one (stmt.Try (behind self.old.rows) self.old.around (code_at 0)) (write_statements (statements_in body.now) self.old.places self.old.around) self.old.rows) self.old) }
        ensures grows { OnOk result (length self.old.rows + 1 ≤ length self.new.rows) }
    {
        let owner = self.rows.len();
        self.open_try()?;
        self.statements(body)?;
        self.set_second(owner)
    }

    /// What stands for a statement with parts.
    #[cycle(writer)]
    fn act(&mut self, action: Action, parts: &[Value]) -> Result<(), AllocError>
        ensures rows { OnOk result (self.new ≡ written (write_statement (Acts 0 action (values_in parts.now)) self.old.places self.old.around self.old.rows) self.old) }
        ensures grows { OnOk result (length self.old.rows ≤ length self.new.rows) }
    {
        let outer = self.around;
        let positions = self.hold_all(parts)?;
        let row = action_row(action, self.places.as_slice(), positions);
        self.add(row)?;
        self.around = outer;
        Ok(())
    }

    /// What stands for a `local`.
    #[cycle(writer)]
    fn put_local(&mut self, count: u32, body: &[Statement]) -> Result<(), AllocError>
        ensures rows { OnOk result (self.new ≡ written (write_statements (statements_in body.now) (declare self.old.places self.old.around count) (self.old.around + count) (add (stmt.Local self.old.around count (behind self.old.rows)) self.old.rows)) self.old) }
        ensures grows { OnOk result (length self.old.rows ≤ length self.new.rows) }
    {
        self.room()?;
        let outer = self.around;
        let declared = self.places.len();
        let inside = self.behind();
        self.add(Stmt::Local {
            first: outer,
            count,
            body: inside,
        })?;
        self.declare(count)?;
        self.statements(body)?;
        self.leave(declared, outer);
        Ok(())
    }

    /// What stands for a handler, under the identifier that `catch` declares.
    #[cycle(writer)]
    fn put_handler(&mut self, handler: &[Statement]) -> Result<(), AllocError>
        ensures rows { OnOk result (self.new ≡ written (write_statements (statements_in handler.now) (declare self.old.places self.old.around 1) (self.old.around + 1) self.old.rows) self.old) }
        ensures grows { OnOk result (length self.old.rows ≤ length self.new.rows) }
    {
        let outer = self.around;
        let declared = self.places.len();
        self.declare(1)?;
        self.statements(handler)?;
        self.leave(declared, outer);
        Ok(())
    }

    /// What stands for a thread.
    #[cycle(writer)]
    fn put_thread(&mut self, at: &Option<Integer>, body: &[Statement]) -> Result<(), AllocError>
        ensures rows { OnOk result (self.new ≡ written (write_statements (statements_in body.now) self.old.places self.old.around (add (stmt.Thread at.now (behind self.old.rows)) self.old.rows)) self.old) }
        ensures grows { OnOk result (length self.old.rows ≤ length self.new.rows) }
    {
        self.room()?;
        let inside = self.behind();
        self.add(Stmt::Thread {
            at: site_of(at),
            body: inside,
        })?;
        self.statements(body)
    }

    /// What stands for clauses, up to the statements behind `else`.
    #[cycle(writer)]
    fn cases(&mut self, clauses: &[Clause], tested: u32) -> Result<(), AllocError>
        ensures rows { OnOk result (self.new ≡ written (write_cases (clauses_in clauses.now) self.old.places self.old.around tested self.old.rows) self.old) }
        ensures grows { OnOk result (length self.old.rows ≤ length self.new.rows) }
    {
        for clause in clauses {
            self.put_case(clause, tested)?;
        }
        Ok(())
    }

    /// What stands for a clause, before others.
    #[cycle(writer)]
    fn put_case(&mut self, clause: &Clause, tested: u32) -> Result<(), AllocError>
        ensures rows { OnOk result ((cs : Clauses) → write_cases (case_and_of clause.now cs) self.old.places self.old.around tested self.old.rows ≡ write_cases cs self.old.places self.old.around tested self.new.rows) }
        ensures same { OnOk result (self.new ≡ written self.new.rows self.old) }
        ensures grows { OnOk result (length self.old.rows ≤ length self.new.rows) }
    {
        match clause {
            Clause::Then(pattern, body) => self.branch(pattern, body.as_slice(), tested),
        }
    }

    /// A `case` with its first branch, where the second is still to come.
    #[cycle(writer)]
    fn branch(
        &mut self,
        pattern: &Pattern,
        body: &[Statement],
        tested: u32,
    ) -> Result<(), AllocError>
        ensures rows { OnOk result (self.new ≡ written (write_one (stmt.Case tested pattern.now self.old.around (behind self.old.rows) (code_at 0)) (write_statements (statements_in body.now) (declare self.old.places self.old.around (length (features_in pattern.now))) (self.old.around + length (features_in pattern.now))) self.old.rows) self.old) }
        ensures grows { OnOk result (length self.old.rows ≤ length self.new.rows) }
    {
        let outer = self.around;
        let declared = self.places.len();
        let owner = self.rows.len();
        self.open_case(pattern, tested)?;
        self.statements(body)?;
        self.leave(declared, outer);
        self.set_second(owner)
    }
}
