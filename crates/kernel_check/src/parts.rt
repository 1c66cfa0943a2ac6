//! Names, signs, fields, patterns and sites.

ghost use Rattle.std.specs.Prelude.{◌∷◌, [], OnOk, ◌<◌, length, IfOk};
ghost use Rattle.oz_grammar.specs.declared.symbol.Purpose.TheVariants as purpose;
ghost use Rattle.tree_node.specs.declared.limits.TheConstants.{MOST_ITEMS};
ghost use Rattle.oz_grammar.specs.Points as points;
ghost use Rattle.kernel_check.specs.Seen.{points_of, IsWithin};
ghost use Rattle.kernel_check.specs.Runs.{Runs};

use crate::points::{Kind, Points, Stage};
use oz_grammar::{Closer, FaultKind, Purpose, Sign, Symbol, What};
use oz_phrases::{Stop, fault, fields_in_brackets, first_local, formals, mismatch, pattern, site};

impl Points {
    /// A symbol that stands alone.
    #[tactic(auto, using(crate::proofs::Steps::sign_goes, crate::proofs::Steps::sign_refused))]
    pub fn here<'t>(&mut self, sign: Sign, symbols: &'t [Symbol]) -> Result<&'t [Symbol], Stop>
        requires { IsWithin self.old }
        ensures within { OnOk result (IsWithin self.new) }
        ensures runs { Runs (λ x. x.now) result symbols.now (points.Here sign ∷ points_of self.old) (points_of self.new) }
        ensures shorter { IfOk result (λ x. length x.now < length symbols.now) }
    {
        oz_phrases::sign(sign, symbols)
    }

    /// A variable that is used.
    pub fn used<'t>(&mut self, symbols: &'t [Symbol]) -> Result<&'t [Symbol], Stop>
        requires { IsWithin self.old }
        ensures within { OnOk result (IsWithin self.new) }
        ensures runs { Runs (λ x. x.now) result symbols.now (points.Used self.old.scope ∷ points_of self.old) (points_of self.new) }
        ensures shorter { IfOk result (λ x. length x.now < length symbols.now) }
    {
        match symbols {
            [Symbol::Variable(name), rest @ ..] => match self.scope.position(name.as_slice()) {
                Some(_) => Ok(rest),
                None => Err(fault(FaultKind::Unbound, symbols)),
            },
            _ => Err(mismatch(What::Variable, symbols)),
        }
    }

    /// What follows a dot.
    pub fn selected<'t>(&mut self, symbols: &'t [Symbol]) -> Result<&'t [Symbol], Stop>
        requires { IsWithin self.old }
        ensures within { OnOk result (IsWithin self.new) }
        ensures runs { Runs (λ x. x.now) result symbols.now (points.SelectionOf self.old.scope ∷ points_of self.old) (points_of self.new) }
        ensures shorter { IfOk result (λ x. length x.now < length symbols.now) }
    {
        match symbols {
            [Symbol::Variable(name), rest @ ..] => match self.scope.position(name.as_slice()) {
                Some(_) => Ok(rest),
                None => Err(fault(FaultKind::Unbound, symbols)),
            },
            [Symbol::Atom(_), rest @ ..] => Ok(rest),
            [Symbol::Integer(Some(_)), rest @ ..] => Ok(rest),
            [Symbol::Integer(None), ..] => Err(fault(FaultKind::Number, symbols)),
            _ => Err(mismatch(What::VariableOrFeature, symbols)),
        }
    }

    /// The names of a `local`, before its body.
    #[tactic(auto, using(crate::proofs::Steps::local_goes, crate::proofs::Steps::local_refused))]
    pub fn local<'t>(&mut self, depth: u32, symbols: &'t [Symbol]) -> Result<&'t [Symbol], Stop>
        requires { IsWithin self.old }
        ensures within { OnOk result (IsWithin self.new) }
        ensures runs { Runs (λ x. x.now) result symbols.now (points.LocalName self.old.scope depth ∷ points_of self.old) (points_of self.new) }
        ensures shorter { IfOk result (λ x. length x.now < length symbols.now) }
    {
        let (names, rest) = first_local(self.alloc, symbols)?;
        self.open(names, Kind::At(Stage::First, Closer::End), depth)?;
        Ok(rest)
    }

    /// The name in a `proc` statement, before its formals.
    pub fn proc_name<'t>(&mut self, depth: u32, symbols: &'t [Symbol]) -> Result<&'t [Symbol], Stop>
        requires { IsWithin self.old }
        ensures within { OnOk result (IsWithin self.new) }
        ensures runs { Runs (λ x. x.now) result symbols.now (points.ProcName self.old.scope depth ∷ points_of self.old) (points_of self.new) }
        ensures shorter { IfOk result (λ x. length x.now < length symbols.now) }
    {
        match symbols {
            [Symbol::Variable(name), rest @ ..] => match self.scope.position(name.as_slice()) {
                Some(_) => {
                    self.put(Kind::Formals, depth)?;
                    Ok(rest)
                }
                None => Err(fault(FaultKind::Unbound, symbols)),
            },
            _ => Err(mismatch(What::Variable, symbols)),
        }
    }

    /// The formals of a procedure, before its body.
    #[tactic(auto, using(crate::proofs::Steps::formals_go, crate::proofs::Steps::formals_refused))]
    pub fn formals<'t>(&mut self, depth: u32, symbols: &'t [Symbol]) -> Result<&'t [Symbol], Stop>
        requires { IsWithin self.old }
        ensures within { OnOk result (IsWithin self.new) }
        ensures runs { Runs (λ x. x.now) result symbols.now (points.Formals self.old.scope [] depth ∷ points_of self.old) (points_of self.new) }
        ensures shorter { IfOk result (λ x. length x.now < length symbols.now) }
    {
        let (names, rest) = formals(self.alloc, symbols)?;
        self.open(names, Kind::At(Stage::First, Closer::End), depth)?;
        Ok(rest)
    }

    /// The fields of a record.
    #[tactic(auto, using(crate::proofs::Steps::fields_go, crate::proofs::Steps::fields_refused))]
    pub fn fields<'t>(&mut self, depth: u32, symbols: &'t [Symbol]) -> Result<&'t [Symbol], Stop>
        requires { IsWithin self.old }
        ensures within { OnOk result (IsWithin self.new) }
        ensures runs { Runs (λ x. x.now) result symbols.now (points.FieldOf purpose.Use self.old.scope depth MOST_ITEMS [] 1 ∷ points_of self.old) (points_of self.new) }
        ensures shorter { IfOk result (λ x. length x.now < length symbols.now) }
    {
        let (_, rest) = fields_in_brackets(self.alloc, Purpose::Use, &self.scope, symbols)?;
        Ok(rest)
    }

    /// A pattern, before the branch under its variables.
    #[tactic(auto, using(crate::proofs::Steps::pattern_goes, crate::proofs::Steps::pattern_refused))]
    pub fn pattern<'t>(&mut self, depth: u32, symbols: &'t [Symbol]) -> Result<&'t [Symbol], Stop>
        requires { IsWithin self.old }
        ensures within { OnOk result (IsWithin self.new) }
        ensures runs { Runs (λ x. x.now) result symbols.now (points.PatternOf self.old.scope depth ∷ points_of self.old) (points_of self.new) }
        ensures shorter { IfOk result (λ x. length x.now < length symbols.now) }
    {
        let (_, names, rest) = pattern(self.alloc, &self.scope, symbols)?;
        self.open(names, Kind::At(Stage::First, Closer::Else), depth)?;
        self.put(Kind::Here(Sign::Then), depth)?;
        Ok(rest)
    }

    /// The site of a thread.
    #[tactic(auto, using(crate::proofs::Steps::site_goes, crate::proofs::Steps::site_refused))]
    pub fn site<'t>(&mut self, symbols: &'t [Symbol]) -> Result<&'t [Symbol], Stop>
        requires { IsWithin self.old }
        ensures within { OnOk result (IsWithin self.new) }
        ensures runs { Runs (λ x. x.now) result symbols.now (points.SiteHere ∷ points_of self.old) (points_of self.new) }
        ensures shorter { IfOk result (λ x. length x.now < length symbols.now) }
    {
        let (_, rest) = site(symbols)?;
        Ok(rest)
    }

    /// The name in `catch`, before the handler.
    pub fn catch<'t>(&mut self, depth: u32, symbols: &'t [Symbol]) -> Result<&'t [Symbol], Stop>
        requires { IsWithin self.old }
        ensures within { OnOk result (IsWithin self.new) }
        ensures runs { Runs (λ x. x.now) result symbols.now (points.CatchName self.old.scope depth ∷ points_of self.old) (points_of self.new) }
        ensures shorter { IfOk result (λ x. length x.now < length symbols.now) }
    {
        match symbols {
            [Symbol::Variable(name), rest @ ..] => {
                let names = vec![in self.alloc; name.copy()?]?;
                self.open(names, Kind::At(Stage::First, Closer::End), depth)?;
                self.put(Kind::Here(Sign::Then), depth)?;
                Ok(rest)
            }
            _ => Err(mismatch(What::Variable, symbols)),
        }
    }
}
