//! The right sides of tells, and calls.

ghost use Rattle.std.specs.Prelude.{◌≡◌, ◌∷◌, OnOk, ◌<◌, length, IfOk};
ghost use Rattle.oz_grammar.specs.Points as points;
ghost use Rattle.kernel_check.specs.Seen.{points_of, IsWithin};
ghost use Rattle.kernel_check.specs.Runs.{Runs};

use crate::points::{Kind, Points, Stage};
use crate::statements::fewer;
use oz_grammar::{Closer, FaultKind, Sign, Symbol, What};
use oz_phrases::{Stop, arity_of, built_in_at, fault, mismatch};
use std::alloc::AllocError;
use tree_node::MOST_ITEMS;

impl Points {
    /// The right side of a tell.
    pub fn value<'t>(
        &mut self,
        closer: Closer,
        depth: u32,
        symbols: &'t [Symbol],
    ) -> Result<&'t [Symbol], Stop>
        requires { IsWithin self.old }
        ensures within { OnOk result (IsWithin self.new) }
        ensures runs { Runs (λ x. x.now) result symbols.now (points.ValueOf closer self.old.scope depth ∷ points_of self.old) (points_of self.new) }
        ensures shorter { IfOk result (λ x. length x.now < length symbols.now) }
    {
        match symbols {
            [Symbol::Variable(name), rest @ ..] => match self.scope.position(name.as_slice()) {
                Some(_) => {
                    self.put(Kind::BehindVariable(closer), depth)?;
                    Ok(rest)
                }
                None => Err(fault(FaultKind::Unbound, symbols)),
            },
            [Symbol::Integer(Some(_)), rest @ ..] => {
                self.put(Kind::At(Stage::Later, closer), depth)?;
                Ok(rest)
            }
            [Symbol::Integer(None), ..] => Err(fault(FaultKind::Number, symbols)),
            [Symbol::Atom(_), rest @ ..] => {
                self.put(Kind::BehindAtom(closer), depth)?;
                Ok(rest)
            }
            [Symbol::Proc, rest @ ..] => {
                self.put(Kind::At(Stage::Later, closer), depth)?;
                self.put(Kind::Formals, fewer(depth))?;
                self.put(Kind::Here(Sign::Dollar), depth)?;
                self.put(Kind::Here(Sign::OpenCurly), depth)?;
                Ok(rest)
            }
            _ => Err(mismatch(What::Value, symbols)),
        }
    }

    /// The second variable of a right side, and what is behind the tell.
    fn operand(&mut self, closer: Closer, depth: u32) -> Result<(), AllocError>
        requires { IsWithin self.old }
        ensures within { OnOk result (IsWithin self.new) }
        ensures points { OnOk result (points_of self.new ≡ points.Used self.old.scope ∷ points.At points.Later closer self.old.scope depth ∷ points_of self.old) }
    {
        self.put(Kind::At(Stage::Later, closer), depth)?;
        self.put(Kind::Used, depth)
    }

    /// Behind the first variable of a right side.
    pub fn behind_variable<'t>(
        &mut self,
        closer: Closer,
        depth: u32,
        symbols: &'t [Symbol],
    ) -> Result<&'t [Symbol], Stop>
        requires { IsWithin self.old }
        ensures within { OnOk result (IsWithin self.new) }
        ensures runs { Runs (λ x. x.now) result symbols.now (points.BehindVariable closer self.old.scope depth ∷ points_of self.old) (points_of self.new) }
        ensures shorter { IfOk result (λ x. length x.now < length symbols.now) }
    {
        match symbols {
            [] => self.statement(Stage::Later, closer, depth, symbols),
            [first, rest @ ..] => match first {
                Symbol::Operator(_) | Symbol::Test(_) | Symbol::Bar => {
                    self.operand(closer, depth)?;
                    Ok(rest)
                }
                Symbol::Dot => {
                    self.put(Kind::At(Stage::Later, closer), depth)?;
                    self.put(Kind::SelectionOf, depth)?;
                    Ok(rest)
                }
                _ => self.statement(Stage::Later, closer, depth, symbols),
            },
        }
    }

    /// Behind the atom of a right side.
    pub fn behind_atom<'t>(
        &mut self,
        closer: Closer,
        depth: u32,
        symbols: &'t [Symbol],
    ) -> Result<&'t [Symbol], Stop>
        requires { IsWithin self.old }
        ensures within { OnOk result (IsWithin self.new) }
        ensures runs { Runs (λ x. x.now) result symbols.now (points.BehindAtom closer self.old.scope depth ∷ points_of self.old) (points_of self.new) }
        ensures shorter { IfOk result (λ x. length x.now < length symbols.now) }
    {
        match symbols {
            [] => self.statement(Stage::Later, closer, depth, symbols),
            [first, rest @ ..] => match first {
                Symbol::OpenRound => {
                    self.put(Kind::At(Stage::Later, closer), depth)?;
                    self.put(Kind::Fields, depth)?;
                    Ok(rest)
                }
                _ => self.statement(Stage::Later, closer, depth, symbols),
            },
        }
    }

    /// The name of a call.
    pub fn call_name<'t>(&mut self, symbols: &'t [Symbol]) -> Result<&'t [Symbol], Stop>
        requires { IsWithin self.old }
        ensures within { OnOk result (IsWithin self.new) }
        ensures runs { Runs (λ x. x.now) result symbols.now (points.CallName self.old.scope ∷ points_of self.old) (points_of self.new) }
        ensures shorter { IfOk result (λ x. length x.now < length symbols.now) }
    {
        match symbols {
            [Symbol::Variable(name), rest @ ..] => {
                match built_in_at(&self.scope, name.as_slice()) {
                    Some(called) => {
                        self.put(Kind::Wanted(arity_of(called)), 0)?;
                        Ok(rest)
                    }
                    None => match self.scope.position(name.as_slice()) {
                        Some(_) => {
                            self.put(Kind::Arguments(0), 0)?;
                            Ok(rest)
                        }
                        None => Err(fault(FaultKind::Unbound, symbols)),
                    },
                }
            }
            _ => Err(mismatch(What::Variable, symbols)),
        }
    }

    /// An argument of a procedure behind so many others, or the bracket.
    pub fn argument<'t>(
        &mut self,
        count: usize,
        symbols: &'t [Symbol],
    ) -> Result<&'t [Symbol], Stop>
        requires { IsWithin self.old }
        ensures within { OnOk result (IsWithin self.new) }
        ensures runs { Runs (λ x. x.now) result symbols.now (points.Arguments self.old.scope count ∷ points_of self.old) (points_of self.new) }
        ensures shorter { IfOk result (λ x. length x.now < length symbols.now) }
    {
        match symbols {
            [Symbol::CloseCurly, rest @ ..] => Ok(rest),
            [Symbol::Variable(name), rest @ ..] => {
                if count >= MOST_ITEMS as usize {
                    return Err(fault(FaultKind::Wide, symbols));
                }
                match self.scope.position(name.as_slice()) {
                    Some(_) => {
                        self.put(Kind::Arguments(count + 1), 0)?;
                        Ok(rest)
                    }
                    None => Err(fault(FaultKind::Unbound, symbols)),
                }
            }
            _ => Err(mismatch(What::VariableOrClose, symbols)),
        }
    }

    /// So many arguments of what is built in, or the bracket.
    #[tactic(auto, using(crate::proofs::Steps::wanted_none, crate::proofs::Steps::wanted_more))]
    pub fn wanted<'t>(&mut self, count: u32, symbols: &'t [Symbol]) -> Result<&'t [Symbol], Stop>
        requires { IsWithin self.old }
        ensures within { OnOk result (IsWithin self.new) }
        ensures runs { Runs (λ x. x.now) result symbols.now (points.Wanted self.old.scope count ∷ points_of self.old) (points_of self.new) }
        ensures shorter { IfOk result (λ x. length x.now < length symbols.now) }
    {
        if count == 0 {
            return match symbols {
                [Symbol::CloseCurly, rest @ ..] => Ok(rest),
                _ => Err(mismatch(What::Close, symbols)),
            };
        }
        match symbols {
            [Symbol::Variable(name), rest @ ..] => match self.scope.position(name.as_slice()) {
                Some(_) => {
                    self.put(Kind::Wanted(count - 1), 0)?;
                    Ok(rest)
                }
                None => Err(fault(FaultKind::Unbound, symbols)),
            },
            _ => Err(mismatch(What::Variable, symbols)),
        }
    }
}
