//! The check of all symbols.

ghost use Rattle.std.specs.Prelude.{◌∷◌, OnOk, ◌<◌, length, IfOk};
ghost use Rattle.oz_grammar.specs.Points as points;
ghost use Rattle.kernel_check.specs.Seen.{point_of, points_of, IsWithin};
ghost use Rattle.kernel_check.specs.Runs.{Runs, IsChecked};

use crate::points::{Kind, Points};
use oz_grammar::Symbol;
use oz_phrases::Stop;
use std::alloc::Global;

impl Points {
    /// What is expected at a point, up to the symbols behind it.
    fn step<'t>(
        &mut self,
        kind: Kind,
        depth: u32,
        symbols: &'t [Symbol],
    ) -> Result<&'t [Symbol], Stop>
        requires { IsWithin self.old }
        ensures within { OnOk result (IsWithin self.new) }
        ensures runs { Runs (λ x. x.now) result symbols.now (point_of kind self.old.scope depth ∷ points_of self.old) (points_of self.new) }
        ensures shorter { IfOk result (λ x. length x.now < length symbols.now) }
    {
        match kind {
            Kind::At(stage, closer) => self.statement(stage, closer, depth, symbols),
            Kind::Here(sign) => self.here(sign, symbols),
            Kind::Used => self.used(symbols),
            Kind::LocalName => self.local(depth, symbols),
            Kind::ValueOf(closer) => self.value(closer, depth, symbols),
            Kind::BehindVariable(closer) => self.behind_variable(closer, depth, symbols),
            Kind::BehindAtom(closer) => self.behind_atom(closer, depth, symbols),
            Kind::SelectionOf => self.selected(symbols),
            Kind::Fields => self.fields(depth, symbols),
            Kind::CallName => self.call_name(symbols),
            Kind::Arguments(count) => self.argument(count, symbols),
            Kind::Wanted(count) => self.wanted(count, symbols),
            Kind::PatternOf => self.pattern(depth, symbols),
            Kind::ProcName => self.proc_name(depth, symbols),
            Kind::Formals => self.formals(depth, symbols),
            Kind::SiteHere => self.site(symbols),
            Kind::CatchName => self.catch(depth, symbols),
        }
    }
}

/// Whether these symbols are a program of the kernel (CTM section 2.3): nothing, or their first fault. Time and memory grow with
/// the symbols.
#[tactic(auto, using(crate::proofs::Steps::finished))]
pub fn check(alloc: Global, symbols: &[Symbol]) -> Result<(), Stop>
    ensures { IsChecked result symbols.now points.start }
{
    let mut points = Points::start(alloc)?;
    let mut rest = symbols;
    'points: while let Some((kind, depth)) = points.take()? {
        rest = points.step(kind, depth, rest)?;
    }
    Ok(())
}
