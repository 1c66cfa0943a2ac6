//! What is wrong with the formals of procedures and functions.

ghost use Rattle.std.specs.Prelude.{◌≡◌, ◌≤◌, length, drop};
ghost use Rattle.oz_grammar.specs.Scoping.{has_name};
ghost use Rattle.surface_grammar.specs.Points.{most_formals, formal_wrong};

use oz_grammar::FaultKind;
use oz_phrases::Scope;
use surface_grammar::Callable;
use tree_node::MOST_ITEMS;

/// How many formals there may be: the last of a function's procedure is its result.
fn most_formals(callable: Callable) -> usize
    ensures { result ≡ most_formals callable }
{
    match callable {
        Callable::OfProc => MOST_ITEMS as usize,
        Callable::OfFun => 63,
    }
}

/// Whether a name is among those that are declared from `outer` on.
#[tactic(auto, using(crate::proofs::Declared::declared_some, crate::proofs::Declared::declared_none))]
fn is_among(scope: &Scope, outer: usize, name: &[u8]) -> bool
    ensures { result ≡ has_name (drop outer scope.now) name.now }
{
    match scope.position(name) {
        Some(position) => position >= outer,
        None => false,
    }
}

/// What is wrong with one formal more, behind those that are declared from `outer` on.
pub fn formal_wrong(
    callable: Callable,
    scope: &Scope,
    outer: usize,
    name: &[u8],
) -> Option<FaultKind>
    requires { outer ≤ length scope.now }
    ensures { result ≡ formal_wrong callable (drop outer scope.now) name.now }
{
    if scope.len() - outer >= most_formals(callable) {
        Some(FaultKind::Wide)
    } else if is_among(scope, outer, name) {
        Some(FaultKind::Twice)
    } else {
        None
    }
}
