//! Equations of a bundle are taken in.

ghost use Rattle.std.specs.Prelude.{◌≡◌, ◌∷◌, [], ◌++◌, IfOk, OnOk, Contains};
ghost use Rattle.tree_node.specs.Each.{Each};
ghost use Rattle.tree_node.specs.Order.{IsLower};
ghost use Rattle.tree_node.specs.Store.{Equation};
ghost use Rattle.site_message.specs.Vars.{vars_of as term_vars};
ghost use Rattle.site_model.specs.Bundle.{distinct_vars, vars_of_equations};
ghost use Rattle.marshal.specs.Marshal.{with_equation, with_equations, AreKnown};

use crate::vars::vars_of;
use site_message::Bundle;
use std::alloc::{AllocError, Global};
use tree_node::{Term, VarName, Vars, copy_term};
use tree_store::Store;

/// The store knows the equations of a bundle from now on, and their names. The answer is the names that are new.
pub fn import(alloc: Global, store: &mut Store, bundle: &Bundle) -> Result<Vars, AllocError>
    requires { Each (λ (e : Equation). IsLower e.1 e.0) bundle.now }
    ensures equations { OnOk result (store.new.equations ≡ with_equations store.old.equations bundle.now) }
    ensures known { OnOk result (store.new.known ≡ store.old.known ++ distinct_vars store.old.known (vars_of_equations bundle.now)) }
    ensures new { IfOk result (λ v. v ≡ distinct_vars store.old.known (vars_of_equations bundle.now)) }
{
    let mut names = Vec::new(alloc);
    take_all(alloc, store, &mut names, bundle.as_slice())?;
    let vars = Vars::from_vec(names)?;
    Ok(vars)
}

// Equations are taken in, one after another.
fn take_all(
    alloc: Global,
    store: &mut Store,
    names: &mut Vec<VarName>,
    equations: &[(VarName, Term)],
) -> Result<(), AllocError>
    requires { Each (λ (e : Equation). IsLower e.1 e.0) equations.now }
    ensures equations { OnOk result (store.new.equations ≡ with_equations store.old.equations equations.now) }
    ensures known { OnOk result (AreKnown (vars_of_equations equations.now) store.old names.old.items store.new names.new.items) }
{
    for (var, term) in equations {
        take(alloc, store, names, *var, term)?;
    }
    Ok(())
}

// An equation is taken in, where its variable has none, and its names are known.
fn take(
    alloc: Global,
    store: &mut Store,
    names: &mut Vec<VarName>,
    var: VarName,
    term: &Term,
) -> Result<(), AllocError>
    requires { IsLower term.now var }
    ensures equations { OnOk result (store.new.equations ≡ with_equation store.old.equations (var, term.now)) }
    ensures known { OnOk result (AreKnown (var ∷ term_vars term.now) store.old names.old.items store.new names.new.items) }
{
    let vars = vars_of(alloc, term)?;
    know(store, names, var)?;
    know_all(store, names, &vars)?;
    let copy = copy_term(term)?;
    bind(store, var, copy)?;
    Ok(())
}

// A name is known.
#[tactic(auto, using(crate::proofs::ImportLemmas::known_there, crate::proofs::ImportLemmas::known_new))]
fn know(store: &mut Store, names: &mut Vec<VarName>, var: VarName) -> Result<(), AllocError>
    ensures known { OnOk result (AreKnown (var ∷ []) store.old names.old.items store.new names.new.items) }
    ensures equations { OnOk result (store.new.equations ≡ store.old.equations) }
{
    if store.known(var) {
        return Ok(());
    }
    store.know(var)?;
    names.push(var)?;
    Ok(())
}

// Names are known, one after another.
fn know_all(store: &mut Store, names: &mut Vec<VarName>, vars: &[VarName]) -> Result<(), AllocError>
    ensures known { OnOk result (AreKnown vars.now store.old names.old.items store.new names.new.items) }
    ensures equations { OnOk result (store.new.equations ≡ store.old.equations) }
{
    for var in vars {
        know(store, names, *var)?;
    }
    Ok(())
}

// A known variable is bound, where it has no equation.
#[tactic(auto, using(crate::proofs::ImportLemmas::bound_before, crate::proofs::ImportLemmas::bound_now))]
fn bind(store: &mut Store, var: VarName, term: Term) -> Result<(), AllocError>
    requires known { Contains store.old.known var }
    requires lower { IsLower term var }
    ensures equations { OnOk result (store.new.equations ≡ with_equation store.old.equations (var, term)) }
    ensures known { OnOk result (store.new.known ≡ store.old.known) }
{
    match store.equation(var) {
        Some(_) => Ok(()),
        None => {
            store.bind(var, term)?;
            Ok(())
        }
    }
}
