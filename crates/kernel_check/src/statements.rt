//! Statements, and what else may stand at their place.

ghost use Rattle.std.specs.Prelude.{◌≡◌, ◌+◌, ◌<◌, ◌∷◌, ◌++◌, false, OnOk, length, IfOk};
ghost use Rattle.oz_grammar.specs.Faults.{fewer};
ghost use Rattle.oz_grammar.specs.Points.{points_behind_first, stmt_fault};
ghost use Rattle.oz_grammar.specs.Points as points;
ghost use Rattle.oz_grammar.specs.Reading.{is_at_statement};
ghost use Rattle.oz_grammar.specs.declared.symbol.Closer.TheVariants as closer;
ghost use Rattle.kernel_check.specs.Seen.{stage_of, point_of, points_of, IsWithin};
ghost use Rattle.kernel_check.specs.Runs.{Runs, IsOn, head_points};

use crate::points::{Kind, Points, Stage};
use oz_grammar::{Closer, FaultKind, Sign, Symbol, What};
use oz_phrases::{Scope, Stop, expected_after, fault, is_at_statement, is_end_of, mismatch};
use std::alloc::AllocError;

/// One level less, of none none.
pub fn fewer(depth: u32) -> u32
    ensures { result ≡ fewer depth }
{
    if depth == 0 { 0 } else { depth - 1 }
}

/// What is wrong with a statement that begins with this symbol, where levels are left.
fn wrong_first(scope: &Scope, first: &Symbol) -> Option<FaultKind>
    ensures { result ≡ stmt_fault scope.now 1 first.now }
{
    match first {
        Symbol::Variable(name) => match scope.position(name.as_slice()) {
            Some(_) => None,
            None => Some(FaultKind::Unbound),
        },
        _ => None,
    }
}

impl Points {
    /// A statement, or what else may stand there.
    #[tactic(auto, using(crate::proofs::Steps::deep_here, crate::proofs::Steps::begun, crate::proofs::Steps::not_begun))]
    pub fn statement<'t>(
        &mut self,
        stage: Stage,
        closer: Closer,
        depth: u32,
        symbols: &'t [Symbol],
    ) -> Result<&'t [Symbol], Stop>
        requires { IsWithin self.old }
        ensures within { OnOk result (IsWithin self.new) }
        ensures runs { Runs (λ x. x.now) result symbols.now (points.At (stage_of stage) closer self.old.scope depth ∷ points_of self.old) (points_of self.new) }
        ensures shorter { IfOk result (λ x. length x.now < length symbols.now) }
    {
        if !is_at_statement(symbols) {
            return self.beside(stage, closer, depth, symbols);
        }
        if depth == 0 {
            return Err(fault(FaultKind::Deep, symbols));
        }
        match symbols {
            [] => Ok(symbols),
            [first, rest @ ..] => {
                if let Some(kind) = wrong_first(&self.scope, first) {
                    return Err(fault(kind, symbols));
                }
                self.begin(closer, depth, first)?;
                Ok(rest)
            }
        }
    }

    /// What may stand at the place of a statement besides: the closer, or `at`.
    #[tactic(auto, using(crate::proofs::Steps::first_alone, crate::proofs::Steps::closed, crate::proofs::Steps::not_closed))]
    fn beside<'t>(
        &mut self,
        stage: Stage,
        closer: Closer,
        depth: u32,
        symbols: &'t [Symbol],
    ) -> Result<&'t [Symbol], Stop>
        requires within { IsWithin self.old }
        requires no_statement { is_at_statement symbols.now ≡ false }
        ensures within { OnOk result (IsWithin self.new) }
        ensures runs { Runs (λ x. x.now) result symbols.now (points.At (stage_of stage) closer self.old.scope depth ∷ points_of self.old) (points_of self.new) }
        ensures shorter { IfOk result (λ x. length x.now < length symbols.now) }
    {
        match stage {
            Stage::First => Err(mismatch(What::Statement, symbols)),
            Stage::AfterThread => match symbols {
                [Symbol::At, rest @ ..] => {
                    self.put(Kind::At(Stage::First, closer), depth)?;
                    self.put(Kind::SiteHere, depth)?;
                    Ok(rest)
                }
                _ => Err(mismatch(What::StatementOrAt, symbols)),
            },
            Stage::Later => {
                if is_end_of(closer, symbols) {
                    return Ok(symbols.split_at(1).1);
                }
                Err(mismatch(expected_after(closer), symbols))
            }
        }
    }

    /// The points behind the symbol that begins a statement.
    fn begin(&mut self, closer: Closer, depth: u32, first: &Symbol) -> Result<(), AllocError>
        requires { IsWithin self.old }
        ensures within { OnOk result (IsWithin self.new) }
        ensures points { OnOk result (IsOn (points_behind_first closer self.old.scope depth first.now) (points_of self.old) (points_of self.new)) }
    {
        match first {
            Symbol::Variable(_) => {
                self.put(Kind::ValueOf(closer), depth)?;
                self.put(Kind::Here(Sign::Equals), depth)
            }
            _ => {
                self.put(Kind::At(Stage::Later, closer), depth)?;
                self.begin_within(fewer(depth), first)
            }
        }
    }

    /// .. where that is no variable, but for the point behind the statement, which is there.
    fn begin_within(&mut self, inner: u32, first: &Symbol) -> Result<(), AllocError>
        requires { IsWithin self.old }
        ensures within { OnOk result (IsWithin self.new) }
        ensures points { OnOk result (points_of self.new ≡ head_points first.now self.old.scope inner ++ points_of self.old) }
    {
        match first {
            Symbol::OpenCurly => self.put(Kind::CallName, inner),
            Symbol::Raise => {
                self.put(Kind::Here(Sign::End), inner)?;
                self.put(Kind::Used, inner)
            }
            Symbol::Local => self.put(Kind::LocalName, inner),
            Symbol::Proc => {
                self.put(Kind::ProcName, inner)?;
                self.put(Kind::Here(Sign::OpenCurly), inner)
            }
            Symbol::Thread => self.put(Kind::At(Stage::AfterThread, Closer::End), inner),
            Symbol::If => self.branches(inner, Kind::At(Stage::First, Closer::Else), Sign::Then),
            Symbol::Case => self.branches(inner, Kind::PatternOf, Sign::Of),
            Symbol::Try => {
                self.put(Kind::CatchName, inner)?;
                self.put(Kind::At(Stage::First, Closer::Catch), inner)
            }
            _ => Ok(()),
        }
    }

    /// A variable that is used, a sign, what is behind that, and the other branch.
    fn branches(&mut self, inner: u32, behind: Kind, sign: Sign) -> Result<(), AllocError>
        requires { IsWithin self.old }
        ensures within { OnOk result (IsWithin self.new) }
        ensures points { OnOk result (points_of self.new ≡ points.Used self.old.scope ∷ points.Here sign ∷ point_of behind self.old.scope inner ∷ points.At points.First closer.End self.old.scope inner ∷ points_of self.old) }
    {
        self.put(Kind::At(Stage::First, Closer::End), inner)?;
        self.put(behind, inner)?;
        self.put(Kind::Here(sign), inner)?;
        self.put(Kind::Used, inner)
    }
}
