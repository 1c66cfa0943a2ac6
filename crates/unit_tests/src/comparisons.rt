// Two variables are compared with ample memory.

use std::alloc::{AllocError, Global};
use std::process::Abort;
use std::test::Fail;
use tree_node::{Feature, Fields, Integer, Node, Term, Text, VarName, is_below};
use tree_store::{Compared, Store};

// What a comparison answers, with the numbers of the open variables.
#[derive(Clone, Copy)]
enum Answer {
    Equal,
    Different,
    Open(&'static [u64]),
}

fn var(num: u64) -> VarName {
    VarName { site: 1, num }
}

// The record p of two variables.
fn pair(alloc: Global, first: u64, second: u64) -> Result<Node, AllocError> {
    let label = Text::from_vec(Vec::from_slice(alloc, b"p")?)?;
    let fields = vec![in alloc;
        (Feature::Int(Integer::new(1)), var(first)),
        (Feature::Int(Integer::new(2)), var(second)),
    ]?;
    Ok(Node::Rec(label, Fields::from_vec(fields)?))
}

// A variable is bound to a node, if it is unbound.
fn bind(store: &mut Store, var: VarName, node: Node) -> Result<(), AllocError> {
    store.know(var)?;
    if !store.known(var) {
        return Ok(());
    }
    match store.equation(var) {
        Some(_) => Ok(()),
        None => store.bind(var, Term::Node(node)),
    }
}

// A variable is bound to a lesser one, if it is unbound.
fn link(store: &mut Store, var: VarName, lesser: VarName) -> Result<(), AllocError> {
    store.know(var)?;
    if !is_below(lesser, var) {
        return Ok(());
    }
    if !store.known(var) {
        return Ok(());
    }
    match store.equation(var) {
        Some(_) => Ok(()),
        None => store.bind(var, Term::Var(lesser)),
    }
}

fn have_numbers(vars: &[VarName], numbers: &[u64]) -> bool {
    if vars.len() != numbers.len() {
        return false;
    }
    for (at, var) in vars.iter().enumerate() {
        if var.num != numbers[at] {
            return false;
        }
    }
    true
}

fn is_answer(compared: &Compared, want: Answer) -> bool {
    match (compared, want) {
        (Compared::Equal, Answer::Equal) => true,
        (Compared::Different, Answer::Different) => true,
        (Compared::Open(vars), Answer::Open(numbers)) => have_numbers(vars.as_slice(), numbers),
        _ => false,
    }
}

fn has_answer<R: Abort>(
    rt: &R,
    store: &Store,
    pair: (u64, u64),
    want: Answer,
) -> Result<(), AllocError> {
    let compared = store.compare(var(pair.0), var(pair.1))?;
    assert!(rt; is_answer(&compared, want), "at {} and {}", pair.0, pair.1);
    Ok(())
}

// A variable is bound to the record p of two others.
fn bind_pair(
    alloc: Global,
    store: &mut Store,
    num: u64,
    parts: (u64, u64),
) -> Result<(), AllocError> {
    let node = pair(alloc, parts.0, parts.1)?;
    bind(store, var(num), node)
}

// 0 is p(1 2) and 3 is p(4 5).
fn records(alloc: Global, store: &mut Store) -> Result<(), AllocError> {
    bind_pair(alloc, store, 0, (1, 2))?;
    bind_pair(alloc, store, 3, (4, 5))
}

// 10 is p(11 10) and 11 is p(10 11).
fn rings(alloc: Global, store: &mut Store) -> Result<(), AllocError> {
    bind_pair(alloc, store, 10, (11, 10))?;
    bind_pair(alloc, store, 11, (10, 11))
}

// Nothing is known of the parts.
fn parts_are_open<R: Abort>(rt: &R, store: &Store) -> Result<(), AllocError> {
    has_answer(rt, store, (0, 3), Answer::Open(&[1, 4, 2, 5]))?;
    has_answer(rt, store, (0, 10), Answer::Open(&[1, 2]))
}

// Two rings are the same tree, and so is a variable and itself.
fn rings_are_equal<R: Abort>(rt: &R, store: &Store) -> Result<(), AllocError> {
    has_answer(rt, store, (10, 11), Answer::Equal)?;
    has_answer(rt, store, (0, 0), Answer::Equal)
}

// Part after part is known.
fn parts_differ<R: Abort>(rt: &R, store: &mut Store) -> Result<(), AllocError> {
    link(store, var(4), var(1))?;
    has_answer(rt, store, (0, 3), Answer::Open(&[2, 5]))?;
    bind(store, var(2), Node::Int(Integer::new(1)))?;
    has_answer(rt, store, (0, 3), Answer::Open(&[5]))?;
    bind(store, var(5), Node::Int(Integer::new(2)))?;
    has_answer(rt, store, (3, 0), Answer::Different)
}

#[test]
fn variables_are_compared(rt: HostRuntime) -> Result<(), Fail> {
    let alloc = rt.alloc();
    let mut store = Store::new(alloc);
    records(alloc, &mut store)?;
    rings(alloc, &mut store)?;
    parts_are_open(&rt, &store)?;
    rings_are_equal(&rt, &store)?;
    parts_differ(&rt, &mut store)?;
    Ok(())
}
