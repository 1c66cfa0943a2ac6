//! The names of a `local`, and formals, which are declared as they are read.

ghost use Rattle.std.specs.Prelude.{◌≤◌, ◌+◌, [], length, drop, OnOk};
ghost use Rattle.oz_grammar.specs.Reading.{locals_at, first_local_at};
ghost use Rattle.oz_phrases.specs.ReadAnswers.{IsReadAs};
ghost use Rattle.surface_grammar.specs.Points.{most_formals};
ghost use Rattle.surface_grammar.specs.Reading.{formals_at};
ghost use Rattle.surface_reader.specs.State.{IsDeclaring, HasDeclared};

use super::Reader;
use oz_grammar::{Symbol, What};
use oz_phrases::{Stop, count_fault, fault, mismatch};
use surface_grammar::Callable;
use surface_parts::formal_wrong;

impl<'t> Reader<'t> {
    /// The names of a `local` behind those that are declared from `outer` on, up to `in`.
    #[tactic(auto, using(crate::proofs::Declared::drop_more, crate::proofs::Declared::take_more))]
    fn locals(&mut self, outer: usize) -> Result<(), Stop>
        requires { outer ≤ length self.old.scope }
        ensures read { IsReadAs (λ _. (drop outer self.new.scope, self.new.rest)) result (locals_at (drop outer self.old.scope) self.old.rest) }
        ensures declared { OnOk result (IsDeclaring outer self.old self.new) }
    {
        'names: loop {
            match self.rest {
                [Symbol::In, ..] => {
                    self.advance();
                    return Ok(());
                }
                [Symbol::Variable(name), behind @ ..] => {
                    match count_fault(self.scope.len() - outer) {
                        Some(kind) => return Err(fault(kind, self.rest)),
                        None => self.declare(name, behind)?,
                    }
                }
                _ => return Err(mismatch(What::VariableOrIn, self.rest)),
            }
        }
    }

    /// The names of a `local`, declared within those before.
    #[tactic(auto, using(crate::proofs::Declared::drop_more, crate::proofs::Declared::take_more))]
    pub(super) fn first_local(&mut self) -> Result<(), Stop>
        ensures read { IsReadAs (λ _. (drop (length self.old.scope) self.new.scope, self.new.rest)) result (first_local_at self.old.rest) }
        ensures declared { OnOk result (HasDeclared self.old self.new) }
    {
        match self.rest {
            [Symbol::Variable(name), behind @ ..] => {
                let outer = self.scope.len();
                self.declare(name, behind)?;
                self.locals(outer)
            }
            _ => Err(mismatch(What::Variable, self.rest)),
        }
    }

    /// The formals up to the closing bracket, declared within the names before.
    #[tactic(auto, using(crate::proofs::Declared::drop_more, crate::proofs::Declared::take_more))]
    pub(super) fn formals(&mut self, callable: Callable) -> Result<(), Stop>
        ensures read { IsReadAs (λ _. (drop (length self.old.scope) self.new.scope, self.new.rest)) result (formals_at callable [] self.old.rest) }
        ensures declared { OnOk result (HasDeclared self.old self.new) }
        ensures count { OnOk result (length self.new.scope ≤ length self.old.scope + most_formals callable) }
    {
        let outer = self.scope.len();
        'names: loop {
            match self.rest {
                [Symbol::CloseCurly, ..] => {
                    self.advance();
                    return Ok(());
                }
                [Symbol::Variable(name), behind @ ..] => {
                    match formal_wrong(callable, &self.scope, outer, name.as_slice()) {
                        Some(kind) => return Err(fault(kind, self.rest)),
                        None => self.declare(name, behind)?,
                    }
                }
                _ => return Err(mismatch(What::VariableOrClose, self.rest)),
            }
        }
    }
}
