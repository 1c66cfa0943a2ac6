//! How far walks have come that wait. Each goes on from there along the tails of its list, so that an element is written once, however
//! often more becomes known.

ghost use Rattle.std.specs.Prelude.{◌≡◌, ◌≤◌, ◌+◌, ℕ, Some, None, IfOk, IfSome, OnOk, OnErr, if◌then◌else◌};
ghost use Rattle.std.specs.Map.{lookup};
ghost use Rattle.tree_node.specs.declared.names.VarName.{VarName as Variable};
ghost use Rattle.tree_node.specs.Store.{Store as Equations, equal_var};
ghost use Rattle.tree_node.specs.Shown.{head_and_tail, show_var, show_node, shown_within};
ghost use Rattle.tree_store.specs.Shows.{IsShownFront, WaitsAt, IsAdded, IsWalkEnd};
ghost use Rattle.tree_store.specs.Walk.{text_end, between, has_brackets, head_front, head_back};

use crate::store::{Root, Store};
use crate::walk::{Bounds, Found, list_ends, must_stop, walk_head, walk_node, write_cut};
use indexmap::IndexMap;
use std::alloc::{AllocError, Global};
use tree_node::{Node, VarName};

/// A walk that waits, on the first level: what is written so far, and the variable of the tail that comes next with its bounds. The elements
/// before it are closed, and are shown so whatever more becomes known.
#[derive(Drop)]
pub struct ShownFront {
    pub text: Vec<u8>,
    pub bounds: Bounds,
    pub next: VarName,
}

/// Where a walk ends: with a text, or at a variable that it needs, from where its front is kept.
#[derive(Drop)]
pub enum WalkEnd {
    Text(Vec<u8>),
    Waits(ShownFront, VarName),
}

/// The fronts of walks that wait, each under the variable that is shown.
pub type ShownFronts = IndexMap<VarName, ShownFront>;

/// Takes the front of a variable, if it has one.
pub fn take_shown(fronts: &mut ShownFronts, var: VarName) -> Option<ShownFront>
    ensures front { result ≡ lookup (equal_var var) fronts.old.entries }
    ensures rest { (x : Variable) → lookup (equal_var x) fronts.new.entries ≡ (if equal_var var x then None else lookup (equal_var x) fronts.old.entries) }
{
    fronts.swap_remove(&var)
}

/// Keeps the front of a variable.
pub fn put_shown(
    fronts: &mut ShownFronts,
    var: VarName,
    front: ShownFront,
) -> Result<(), AllocError>
    ensures ok { OnOk result ((x : Variable) → lookup (equal_var x) fronts.new.entries ≡ (if equal_var var x then Some front else lookup (equal_var x) fronts.old.entries)) }
    ensures err { OnErr result ((x : Variable) → lookup (equal_var x) fronts.new.entries ≡ lookup (equal_var x) fronts.old.entries) }
{
    fronts.insert(var, front)?;
    Ok(())
}

// The front with which a walk over at most so many nodes begins.
fn begin_shown(alloc: Global, nodes: u32, var: VarName) -> ShownFront
    ensures { (s : Equations) → IsShownFront nodes var s result }
{
    ShownFront {
        text: Vec::new(alloc),
        bounds: Bounds {
            depth: nodes,
            level: 1,
            left: nodes,
        },
        next: var,
    }
}

// Writes the head of a list behind a text, and takes a buffer for it.
fn write_head(
    alloc: Global,
    store: &Store,
    text: &mut Vec<u8>,
    part: &mut Vec<u8>,
    bounds: Bounds,
    head: VarName,
) -> Result<Found, AllocError>
    requires { bounds.level ≤ 20 }
    ensures { IfOk result (λ f. IsAdded text.old.items text.new.items (between (head_front (has_brackets store.now.equations bounds.level bounds.left head))
        (head_back (has_brackets store.now.equations bounds.level bounds.left head)) (show_var bounds.depth store.now.equations (bounds.level + 1) bounds.left head)) f) }
{
    part.clear();
    let found = walk_head(alloc, store, part, bounds, head)?;
    match found {
        Found::Needs(var) => Ok(Found::Needs(var)),
        Found::Left(left) => {
            text.extend_from_slice(part.as_slice())?;
            Ok(Found::Left(left))
        }
    }
}

// Writes a node that is no list's behind a text, and takes a buffer for it.
fn write_node(
    alloc: Global,
    store: &Store,
    text: &mut Vec<u8>,
    part: &mut Vec<u8>,
    bounds: Bounds,
    node: &Node,
) -> Result<Found, AllocError>
    requires level { bounds.level ≤ 20 }
    requires node { head_and_tail node.now ≡ None }
    ensures { IfOk result (λ f. IsAdded text.old.items text.new.items (show_node store.now.equations (show_var bounds.depth store.now.equations) bounds.level bounds.left node.now) f) }
{
    part.clear();
    let found = walk_node(alloc, store, part, bounds, node)?;
    match found {
        Found::Needs(var) => Ok(Found::Needs(var)),
        Found::Left(left) => {
            text.extend_from_slice(part.as_slice())?;
            Ok(Found::Left(left))
        }
    }
}

// A walk over a variable goes on from its front to its end, or to the variable that it needs next. There the front has gone on over the elements
// before it.
fn show_on(
    alloc: Global,
    store: &Store,
    var: VarName,
    front: &mut ShownFront,
) -> Result<Found, AllocError>
    ghost begun: { ℕ × Variable }
    requires { IsShownFront begun.0 begun.1 store.now.equations front.old }
    ensures found { IfOk result (λ f. text_end f front.new.text.items ≡ shown_within begun.0 store.now.equations begun.1) }
    ensures front { IfOk result (λ f. WaitsAt begun.0 begun.1 store.now.equations front.new.text.items front.new.bounds front.new.next f) }
{
    store.forest();
    // The clauses speak of it.
    let _ = var;
    let mut part = Vec::new(alloc);
    'tails: loop {
        let bounds = front.bounds;
        if must_stop(bounds) {
            let found = write_cut(&mut front.text, bounds.left)?;
            return Ok(found);
        }
        let node = match store.root_of(front.next) {
            Root::Node(node) => node,
            Root::Unbound(_) => return Ok(Found::Needs(front.next)),
        };
        let depth = bounds.depth - 1;
        let level = bounds.level;
        let left = bounds.left - 1;
        let inner = Bounds { depth, level, left };
        match list_ends(node) {
            None => {
                let found = write_node(alloc, store, &mut front.text, &mut part, inner, node)?;
                return Ok(found);
            }
            Some((head, tail)) => {
                let found = write_head(alloc, store, &mut front.text, &mut part, inner, head)?;
                match found {
                    Found::Needs(var) => return Ok(Found::Needs(var)),
                    Found::Left(left) => {
                        front.bounds = Bounds { depth, level, left };
                        front.next = tail;
                    }
                }
            }
        }
    }
}

// The end of a walk over a variable that goes on from a front.
fn end_from(
    alloc: Global,
    store: &Store,
    var: VarName,
    front: ShownFront,
) -> Result<WalkEnd, AllocError>
    requires { IsShownFront 1000 var store.now.equations front }
    ensures { IfOk result (λ e. IsWalkEnd store.now.equations var e) }
{
    let mut front = front;
    let found = show_on(alloc, store, var, &mut front)?;
    match found {
        Found::Left(_) => Ok(WalkEnd::Text(front.text)),
        Found::Needs(needed) => Ok(WalkEnd::Waits(front, needed)),
    }
}

/// A walk over a variable and at most 1,000 nodes goes on from what is kept of it, or begins.
pub fn resume_shown(
    alloc: Global,
    store: &Store,
    var: VarName,
    kept: Option<ShownFront>,
) -> Result<WalkEnd, AllocError>
    requires { IfSome kept (λ f. IsShownFront 1000 var store.now.equations f) }
    ensures { IfOk result (λ e. IsWalkEnd store.now.equations var e) }
{
    match kept {
        Some(front) => end_from(alloc, store, var, front),
        None => end_from(alloc, store, var, begin_shown(alloc, 1000, var)),
    }
}
