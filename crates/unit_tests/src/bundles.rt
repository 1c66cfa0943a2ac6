//! Equations that go out with a message, and come in.

use marshal::{export, export_from, import};
use site_message::Bundle;
use std::alloc::{AllocError, Global};
use std::process::Abort;
use std::test::Fail;
use tree_node::{Feature, Fields, Integer, Node, Term, Text, VarName};
use tree_store::Store;

// A record whose label is a letter, with these variables of site 1 at the features from 1 on.
fn record(alloc: Global, letter: u8, numbers: &[u64]) -> Result<Node, AllocError> {
    let mut fields = Vec::new(alloc);
    let mut feature: i128 = 1;
    for num in numbers {
        fields.push((
            Feature::Int(Integer::new(feature)),
            VarName { site: 1, num: *num },
        ))?;
        feature = feature.saturating_add(1);
    }
    let label = Text::from_vec(Vec::from_slice(alloc, &[letter])?)?;
    Ok(Node::Rec(label, Fields::from_vec(fields)?))
}

// A variable of site 1 is bound to a node, unless it has an equation. Whether it was bound.
fn tell(store: &mut Store, num: u64, node: Node) -> Result<bool, AllocError> {
    let var = VarName { site: 1, num };
    store.know(var)?;
    match (store.known(var), store.equation(var)) {
        (true, None) => (),
        _ => return Ok(false),
    }
    store.bind(var, Term::Node(node))?;
    Ok(true)
}

// A variable of site 1 is made equal to one with a lower number, unless it has an equation. Whether it was done.
fn link(store: &mut Store, num: u64, lower: u64) -> Result<bool, AllocError> {
    let var = VarName { site: 1, num };
    store.know(var)?;
    match (store.known(var), store.equation(var)) {
        (true, None) => (),
        _ => return Ok(false),
    }
    if lower >= num {
        return Ok(false);
    }
    store.bind(
        var,
        Term::Var(VarName {
            site: 1,
            num: lower,
        }),
    )?;
    Ok(true)
}

// What a variable is: an integer, a record with a letter and these variables, or a variable with a lower number.
#[derive(Clone, Copy)]
enum Told {
    Int(i128),
    Record(u8, &'static [u64]),
    Var(u64),
}

// Variable 4 leads to 3, which is f(2 1); 2 is g(0), 1 is 1 and 0 is 2.
static TOLD: [(u64, Told); 5] = [
    (0, Told::Int(2)),
    (1, Told::Int(1)),
    (2, Told::Record(b'g', &[0])),
    (3, Told::Record(b'f', &[2, 1])),
    (4, Told::Var(3)),
];

fn tell_it(alloc: Global, store: &mut Store, num: u64, told: Told) -> Result<bool, AllocError> {
    match told {
        Told::Int(value) => tell(store, num, Node::Int(Integer::new(value))),
        Told::Record(letter, numbers) => tell(store, num, record(alloc, letter, numbers)?),
        Told::Var(lower) => link(store, num, lower),
    }
}

// Whether the store was made so.
fn fill(alloc: Global, store: &mut Store) -> Result<bool, AllocError> {
    for (num, told) in TOLD.as_slice() {
        if !tell_it(alloc, store, *num, *told)? {
            return Ok(false);
        }
    }
    Ok(true)
}

// The numbers of the names in a bundle.
fn numbers_of(alloc: Global, bundle: &Bundle) -> Result<Vec<u64>, AllocError> {
    let mut numbers = Vec::new(alloc);
    for (var, _) in bundle.as_slice() {
        numbers.push(var.num)?;
    }
    Ok(numbers)
}

// A bundle from variable 4 of site 1 has the names of these numbers.
fn expect_bundle<R: Abort>(
    rt: &R,
    alloc: Global,
    store: &Store,
    limit: usize,
    wanted: &[u64],
) -> Result<(), AllocError> {
    let first = VarName { site: 1, num: 4 };
    let bundle = export_from(alloc, store, &[first, first], limit)?;
    let found = numbers_of(alloc, &bundle)?;
    assert_eq!(rt; found.as_slice(), wanted, "{limit}");
    Ok(())
}

// From 4 on the variables are reached breadth first: 4, 3, 2, 1, 0. What is taken of them stands in the order of names.
static OUT: [(usize, &[u64]); 7] = [
    (0, &[]),
    (1, &[4]),
    (2, &[3, 4]),
    (3, &[2, 3, 4]),
    (4, &[1, 2, 3, 4]),
    (5, &[0, 1, 2, 3, 4]),
    (256, &[0, 1, 2, 3, 4]),
];

fn expect_bundles<R: Abort>(rt: &R, alloc: Global, store: &mut Store) -> Result<(), AllocError> {
    assert!(rt; fill(alloc, store)?);
    for (limit, numbers) in OUT.as_slice() {
        expect_bundle(rt, alloc, store, *limit, numbers)?;
    }
    Ok(())
}

#[test]
fn the_first_equations_go_out_by_their_names(rt: HostRuntime) -> Result<(), Fail> {
    let mut store = Store::new(rt.alloc());
    expect_bundles(&rt, rt.alloc(), &mut store)?;
    Ok(())
}

// Nothing is in a bundle of variable 0 where the limit is 0, and nothing comes in with it.
fn expect_empty_bundle<R: Abort>(
    rt: &R,
    alloc: Global,
    store: &mut Store,
) -> Result<(), AllocError> {
    let var = VarName { site: 1, num: 0 };
    assert!(rt; tell(store, 0, Node::Int(Integer::new(5)))?);
    let bundle = export(alloc, store, var, 0)?;
    assert!(rt; bundle.is_empty());
    let news = import(alloc, store, &bundle)?;
    assert!(rt; news.as_slice().is_empty());
    Ok(())
}

#[test]
fn nothing_goes_out_where_the_limit_is_0(rt: HostRuntime) -> Result<(), Fail> {
    let mut store = Store::new(rt.alloc());
    expect_empty_bundle(&rt, rt.alloc(), &mut store)?;
    Ok(())
}
