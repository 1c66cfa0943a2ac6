//! Known equations are taken out of a store.

ghost use Rattle.std.specs.Prelude.{◌≡◌, ◌≤◌, ◌++◌, ◌∷◌, ◌⊎◌, [], false, true, Contains, IfOk, IfSome, IfNone, OnOk, length, take as first};
ghost use Rattle.std.specs.List.{list_any};
ghost use Rattle.std.specs.List.Sorted.{IsPartitionPoint};
ghost use Rattle.tree_node.specs.Each.{Each};
ghost use Rattle.tree_node.specs.Store.{Equation, IsFree, equal_var};
ghost use Rattle.site_message.specs.Vars.{vars_of as term_vars};
ghost use Rattle.site_message.specs.Wire.{NamesAscend};
ghost use Rattle.site_model.specs.Bundle.{is_below as below, insert_ascending, ascending, bundle_from};
ghost use Rattle.site_model.specs.Laws.{left_names};
ghost use Rattle.marshal.specs.Marshal.{IsReachedEquation, IsNext, equations_among};

use crate::vars::push_vars;
use site_message::Bundle;
use std::alloc::{AllocError, Global};
use std::collections::VecDeque;
use tree_node::{Term, VarName, copy_term, is_below};
use tree_store::Store;

/// The first known equations that are reached from a variable, breadth first, at most so many, in the order of their names.
pub fn export(
    alloc: Global,
    store: &Store,
    var: VarName,
    limit: usize,
) -> Result<Bundle, AllocError>
    ensures bundle { IfOk result (λ b. b ≡ bundle_from limit store.now.equations (var ∷ [])) }
    ensures few { IfOk result (λ b. length b ≤ limit) }
    ensures reached { IfOk result (λ b. Each (IsReachedEquation store.now.equations (var ∷ [])) b) }
{
    export_from(alloc, store, &[var], limit)
}

/// The first known equations that are reached from variables, breadth first, at most so many, in the order of their names. It
/// costs by what it takes, and by the variables of that.
pub fn export_from(
    alloc: Global,
    store: &Store,
    vars: &[VarName],
    limit: usize,
) -> Result<Bundle, AllocError>
    ensures bundle { IfOk result (λ b. b ≡ bundle_from limit store.now.equations vars.now) }
    ensures few { IfOk result (λ b. length b ≤ limit) }
    ensures reached { IfOk result (λ b. Each (IsReachedEquation store.now.equations vars.now) b) }
{
    let mut taken = VecDeque::new(alloc);
    let mut queue = Vec::from_slice(alloc, vars)?;
    gather(store, &mut queue, &mut taken, limit)?;
    let bundle = Bundle::from_vec(taken.into_vec())?;
    Ok(bundle)
}

// Equations are gathered from a queue of variables. The variables of each one's term go behind the others. Those whose names come in
// descending order move no others.
fn gather(
    store: &Store,
    queue: &mut Vec<VarName>,
    taken: &mut VecDeque<(VarName, Term)>,
    limit: usize,
) -> Result<(), AllocError>
    requires { taken.old.items ≡ [] }
    ensures { OnOk result (taken.new.items ≡ bundle_from limit store.now.equations queue.old.items) }
{
    store.forest();
    let mut from = 0;
    for count in 0..limit {
        match next(store, queue, from, taken) {
            None => return Ok(()),
            Some((place, term)) => {
                let var = queue[place];
                take(queue, taken, var, term)?;
                from = place + 1;
            }
        }
    }
    Ok(())
}

// The first place from one on whose variable has an equation that was not taken, with its term.
fn next<'a>(
    store: &'a Store,
    queue: &[VarName],
    from: usize,
    taken: &VecDeque<(VarName, Term)>,
) -> Option<(usize, &'a Term)>
    requires ordered { NamesAscend taken.now.items }
    requires taken { taken.now.items ≡ ascending (equations_among store.now.equations (first from queue.now)) }
    ensures none { IfNone result (equations_among store.now.equations queue.now ≡ equations_among store.now.equations (first from queue.now)) }
    ensures some { IfSome result (λ r. IsNext store.now.equations queue.now from taken.now.items r.0 r.1.now) }
{
    for place in from..queue.len() {
        match new_equation(store, taken, queue[place]) {
            Some(term) => return Some((place, term)),
            None => (),
        }
    }
    None
}

// The equation of a variable, where there is one that was not taken.
fn new_equation<'a>(
    store: &'a Store,
    taken: &VecDeque<(VarName, Term)>,
    var: VarName,
) -> Option<&'a Term>
    requires { NamesAscend taken.now.items }
    ensures known { IfSome result (λ t. Contains store.now.equations (var, t.now)) }
    ensures new { IfSome result (λ _. list_any (equal_var var) (left_names taken.now.items) ≡ false) }
    ensures none { IfNone result (IsFree store.now.equations var ⊎ (list_any (equal_var var) (left_names taken.now.items) ≡ true)) }
{
    if is_taken(taken, var) {
        return None;
    }
    store.equation(var)
}

// Whether the equation of a variable was taken.
fn is_taken(taken: &VecDeque<(VarName, Term)>, var: VarName) -> bool
    requires { NamesAscend taken.now.items }
    ensures { result ≡ list_any (equal_var var) (left_names taken.now.items) }
{
    let place = place_of(taken, var);
    place < taken.len() && taken[place].0 == var
}

// How many of these equations, whose names ascend, have a name below this one. It looks at few of them, by halves.
fn place_of(taken: &VecDeque<(VarName, Term)>, var: VarName) -> usize
    requires { NamesAscend taken.now.items }
    ensures within { result ≤ length taken.now.items }
    ensures parted { IsPartitionPoint (λ (e : Equation). below e.0 var ≡ true) (λ (e : Equation). below e.0 var ≡ false) taken.now.items result }
{
    taken.partition_point(
        |equation: &(VarName, Term)| -> bool
            ensures { result ≡ below equation.now.0 var }
        { is_below(equation.0, var) },
    )
}

// An equation is taken: it has its place among the others, and the variables of its term go behind the queue.
fn take(
    queue: &mut Vec<VarName>,
    taken: &mut VecDeque<(VarName, Term)>,
    var: VarName,
    term: &Term,
) -> Result<(), AllocError>
    requires { NamesAscend taken.old.items }
    ensures queue { OnOk result (queue.new.items ≡ queue.old.items ++ term_vars term.now) }
    ensures taken { OnOk result (taken.new.items ≡ insert_ascending (var, term.now) taken.old.items) }
{
    let copy = copy_term(term)?;
    let place = place_of(taken, var);
    push_vars(queue, term)?;
    taken.insert(place, (var, copy))?;
    Ok(())
}
