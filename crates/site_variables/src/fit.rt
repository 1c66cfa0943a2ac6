//! Whether a message is fit for a site, as far as its variables and equations go.

ghost use Rattle.std.specs.Prelude.{◌≡◌, ◌↔◌, IsTrue};
ghost use Rattle.tree_node.specs.Each.{Each};
ghost use Rattle.tree_node.specs.Order.{IsLower};
ghost use Rattle.site_model.specs.Site.{Site as TheSite};
ghost use Rattle.site_model.specs.Fit.{BundleFits};
ghost use Rattle.site_variables.specs.Fit.{with_variables, CanTakeVariable, EquationFits};

use crate::variables::Variables;
use site_message::Msg;
use tree_node::{Term, VarName, equal_term, is_below};

impl Variables {
    /// Whether the equations that a message carries lead down and agree with those that are known here, and tell nothing new
    /// of the site's own variables.
    pub fn bundle_fits(&self, bundle: &[(VarName, Term)]) -> bool
        ensures { (s : TheSite) → IsTrue result ↔ BundleFits (with_variables s self.now) bundle.now }
    {
        self.equations_fit(bundle)
    }

    // Whether each of these equations leads down and agrees with what is known here: `bundle_fits` without the site about it, for
    // the loop.
    #[tactic(auto, using(site_message::proofs::EachLemmas::each_step, site_message::proofs::EachLemmas::each_stop, site_message::proofs::EachLemmas::each_end))]
    fn equations_fit(&self, equations: &[(VarName, Term)]) -> bool
        ensures { IsTrue result ↔ Each (EquationFits self.now) equations.now }
    {
        for equation in equations {
            if !self.equation_fits(equation) {
                return false;
            }
        }
        true
    }

    // Whether an equation leads down and agrees with what is known here.
    fn equation_fits(&self, equation: &(VarName, Term)) -> bool
        ensures { IsTrue result ↔ EquationFits self.now equation.now }
    {
        is_lower(&equation.1, equation.0) && self.agrees(equation.0, &equation.1)
    }

    // Whether an equation that leads down agrees with what is known here.
    fn agrees(&self, var: VarName, term: &Term) -> bool
        requires { IsLower term.now var }
        ensures { IsTrue result ↔ EquationFits self.now (var, term.now) }
    {
        self.store.forest();
        match self.store.equation(var) {
            Some(known) => equal_term(term, known),
            None => !self.binder.owns(var),
        }
    }

    /// Whether the conditions hold of the call on variables that a Register, a BindReq or a Binding leads to. Other messages
    /// lead to none.
    pub fn can_take(&self, msg: &Msg) -> bool
        ensures { (s : TheSite) → IsTrue result ↔ CanTakeVariable (with_variables s self.now) msg.now }
    {
        match msg {
            Msg::Register { .. } => self.binder.takes(msg),
            Msg::BindReq { var, term, .. } => is_lower(term, *var) && self.binder.takes(msg),
            Msg::Binding { var, term, .. } => {
                !self.binder.owns(*var) && is_lower(term, *var) && self.binder.known(*var)
            }
            _ => true,
        }
    }
}

// Whether a term can stand on the right of an equation of a variable.
fn is_lower(term: &Term, var: VarName) -> bool
    ensures { IsTrue result ↔ IsLower term.now var }
{
    match term {
        Term::Var(other) => is_below(*other, var),
        Term::Node(_) => true,
    }
}
