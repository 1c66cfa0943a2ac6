//! A walk over the nodes that a variable reaches, which writes them as they are shown.

ghost use Rattle.std.specs.Prelude.{◌≡◌, ◌⊎◌, ◌≤◌, ◌<◌, ◌+◌, ◌^◌, ◌++◌, [], ◌∷◌, None, true, false, if◌then◌else◌, codes, IfOk, IsTrue};
ghost use Rattle.tree_node.specs.declared.node.Feature.{Feature};
ghost use Rattle.tree_node.specs.declared.node.Node.{Node};
ghost use Rattle.tree_node.specs.Spelling.{atom_text};
ghost use Rattle.tree_node.specs.Store.{node_of};
ghost use Rattle.tree_node.specs.Shown.{Text, is_feature, head_and_tail, is_pair, is_cut, show_var, show_node, show_fields};
ghost use Rattle.tree_store.specs.Walk.{text_after, text_end, between, has_brackets, head_front, head_back, field_name, gap};

use crate::store::{Root, Store};
use std::alloc::{AllocError, Global};
use tree_node::{Feature, Node, Text, VarName, atom_text, feature_text, node_head};

/// Where a walk ended: with so many nodes left, or at a variable that it needs.
#[derive(Clone, Copy)]
pub enum Found {
    Left(u32),
    Needs(VarName),
}

/// How far a walk may go: how deep nodes may still nest, the level that it is at, and how many nodes are left.
#[derive(Clone, Copy)]
pub struct Bounds {
    pub depth: u32,
    pub level: u32,
    pub left: u32,
}

// Whether a feature is this number.
fn is_number(next: u64, feature: &Feature) -> bool
    requires { next < 2 ^ 63 }
    ensures { result ≡ is_feature next feature.now }
{
    match feature {
        Feature::Int(value) => value.get() == i128::from(next),
        Feature::Atom(_) => false,
    }
}

// The head and the tail of a list's node.
pub(crate) fn list_ends(node: &Node) -> Option<(VarName, VarName)>
    ensures { result ≡ head_and_tail node.now }
{
    let Node::Rec(label, fields) = node else {
        return None;
    };
    let fields = fields.as_slice();
    if label.as_slice() != b"|".as_slice() || fields.len() != 2 {
        return None;
    }
    if is_number(1, &fields[0].0) && is_number(2, &fields[1].0) {
        Some((fields[0].1, fields[1].1))
    } else {
        None
    }
}

// Whether the class of a variable has a list's node.
fn is_list(store: &Store, x: VarName) -> bool
    ensures { result ≡ is_pair (node_of store.now.equations x) }
{
    match store.root_of(x) {
        Root::Node(node) => list_ends(node).is_some(),
        Root::Unbound(_) => false,
    }
}

// Whether a walk goes no further.
fn is_cut(level: u32, left: u32) -> bool
    ensures { result ≡ is_cut level left }
{
    level > 20 || left == 0
}

// Whether a walk goes no further at these bounds.
pub(crate) fn must_stop(bounds: Bounds) -> bool
    ensures stops { IsTrue result → (bounds.depth ≡ 0) ⊎ (is_cut bounds.level bounds.left ≡ true) }
    ensures cut { result ≡ false → is_cut bounds.level bounds.left ≡ false }
    ensures depth { result ≡ false → 0 < bounds.depth }
    ensures left { result ≡ false → 0 < bounds.left }
    ensures level { result ≡ false → bounds.level ≤ 20 }
{
    bounds.depth == 0 || is_cut(bounds.level, bounds.left)
}

// Whether the head of a list stands in brackets.
fn has_brackets(store: &Store, bounds: Bounds, head: VarName) -> bool
    requires { bounds.level ≤ 20 }
    ensures { result ≡ has_brackets store.now.equations bounds.level bounds.left head }
{
    is_list(store, head) && !is_cut(bounds.level + 1, bounds.left)
}

// What stands before a list's head.
fn head_front(brackets: bool) -> &'static [u8]
    ensures { result.now ≡ head_front brackets }
{
    if brackets { b"(" } else { b"" }
}

// What stands behind a list's head.
fn head_back(brackets: bool) -> &'static [u8]
    ensures { result.now ≡ head_back brackets }
{
    if brackets { b")|" } else { b"|" }
}

// A field's name with its colon, unless it is the feature that goes without.
fn field_name(alloc: Global, next: u64, feature: &Feature) -> Result<Vec<u8>, AllocError>
    requires { next < 2 ^ 63 }
    ensures { IfOk result (λ v. v.items ≡ field_name next feature.now) }
{
    let mut bytes = Vec::new(alloc);
    if is_number(next, feature) {
        return Ok(bytes);
    }
    let text = feature_text(alloc, feature)?;
    bytes.extend_from_slice(text.as_slice())?;
    bytes.push(b':')?;
    Ok(bytes)
}

// The feature that goes without its name after a field.
fn next_feature(next: u64, feature: &Feature) -> u64
    requires { next < 2 ^ 63 }
    ensures { result ≡ (if is_feature next feature.now then next + 1 else next) }
{
    if is_number(next, feature) {
        next + 1
    } else {
        next
    }
}

// What stands before the fields that follow.
fn gap(more: &[(Feature, VarName)]) -> &'static [u8]
    ensures { result.now ≡ gap more.now }
{
    if more.is_empty() { b"" } else { b" " }
}

// Writes where a walk is cut.
pub(crate) fn write_cut(out: &mut Vec<u8>, left: u32) -> Result<Found, AllocError>
    ensures { IfOk result (λ f. text_end f out.new.items ≡ Text (out.old.items ++ codes ",,,") left) }
{
    out.extend_from_slice(b",,,")?;
    Ok(Found::Left(left))
}

// Walks from a variable, and on along the tails of a list.
#[cycle(walking)]
#[tactic(auto, using(crate::proofs::WalkLemmas::cut_shown, crate::proofs::WalkLemmas::needs_shown, crate::proofs::WalkLemmas::node_shown))]
pub fn walk(
    alloc: Global,
    store: &Store,
    out: &mut Vec<u8>,
    mut bounds: Bounds,
    mut x: VarName,
) -> Result<Found, AllocError>
    requires { bounds.level ≤ 21 }
    ensures { IfOk result (λ f. text_end f out.new.items ≡ text_after out.old.items (show_var bounds.depth store.now.equations bounds.level bounds.left x)) }
{
    'tails: loop {
        if must_stop(bounds) {
            let found = write_cut(out, bounds.left)?;
            return Ok(found);
        }
        let node = match store.root_of(x) {
            Root::Node(node) => node,
            Root::Unbound(_) => return Ok(Found::Needs(x)),
        };
        bounds.depth -= 1;
        bounds.left -= 1;
        match list_ends(node) {
            None => {
                let found = walk_node(alloc, store, out, bounds, node)?;
                return Ok(found);
            }
            Some((head, tail)) => {
                let found = walk_head(alloc, store, out, bounds, head)?;
                match found {
                    Found::Needs(y) => return Ok(Found::Needs(y)),
                    Found::Left(left) => {
                        bounds.left = left;
                        x = tail;
                    }
                }
            }
        }
    }
}

// Walks from a part of a node, within a frame: a text before it and one behind it.
#[cycle(walking)]
#[tactic(auto, using(crate::proofs::WalkLemmas::framed, crate::proofs::WalkLemmas::framed_needs))]
fn walk_part(
    alloc: Global,
    store: &Store,
    out: &mut Vec<u8>,
    bounds: Bounds,
    x: VarName,
    frame: (&[u8], &[u8]),
) -> Result<Found, AllocError>
    requires { bounds.level ≤ 20 }
    ensures { IfOk result (λ f. text_end f out.new.items ≡ text_after out.old.items (between frame.entry.0.now frame.entry.1.now (show_var bounds.depth store.now.equations (bounds.level + 1) bounds.left x))) }
{
    out.extend_from_slice(frame.0)?;
    let inner = Bounds {
        depth: bounds.depth,
        level: bounds.level + 1,
        left: bounds.left,
    };
    let found = walk(alloc, store, out, inner, x)?;
    match found {
        Found::Needs(y) => Ok(Found::Needs(y)),
        Found::Left(left) => {
            out.extend_from_slice(frame.1)?;
            Ok(Found::Left(left))
        }
    }
}

// Walks from the head of a list.
#[cycle(walking)]
pub(crate) fn walk_head(
    alloc: Global,
    store: &Store,
    out: &mut Vec<u8>,
    bounds: Bounds,
    head: VarName,
) -> Result<Found, AllocError>
    requires { bounds.level ≤ 20 }
    ensures { IfOk result (λ f. text_end f out.new.items ≡ text_after out.old.items (between (head_front (has_brackets store.now.equations bounds.level bounds.left head))
        (head_back (has_brackets store.now.equations bounds.level bounds.left head)) (show_var bounds.depth store.now.equations (bounds.level + 1) bounds.left head))) }
{
    let brackets = has_brackets(store, bounds, head);
    let front = head_front(brackets);
    let back = head_back(brackets);
    let found = walk_part(alloc, store, out, bounds, head, (front, back))?;
    Ok(found)
}

// Walks from a node that is no list's.
#[cycle(walking)]
pub(crate) fn walk_node(
    alloc: Global,
    store: &Store,
    out: &mut Vec<u8>,
    bounds: Bounds,
    node: &Node,
) -> Result<Found, AllocError>
    requires level { bounds.level ≤ 20 }
    requires node { head_and_tail node.now ≡ None }
    ensures { IfOk result (λ f. text_end f out.new.items ≡ text_after out.old.items (show_node store.now.equations (show_var bounds.depth store.now.equations) bounds.level bounds.left node.now)) }
{
    if let Node::Rec(label, fields) = node {
        let found = walk_record(alloc, store, out, bounds, label, fields.as_slice())?;
        return Ok(found);
    }
    let head = node_head(alloc, node)?;
    out.extend_from_slice(head.as_slice())?;
    Ok(Found::Left(bounds.left))
}

// Walks from a record that is no list's node.
#[cycle(walking)]
#[tactic(auto, using(crate::proofs::WalkLemmas::framed, crate::proofs::WalkLemmas::framed_needs, crate::proofs::WalkLemmas::record_shown))]
fn walk_record(
    alloc: Global,
    store: &Store,
    out: &mut Vec<u8>,
    bounds: Bounds,
    label: &Text,
    fields: &[(Feature, VarName)],
) -> Result<Found, AllocError>
    requires level { bounds.level ≤ 20 }
    ensures { IfOk result (λ f. text_end f out.new.items ≡ text_after out.old.items (between (atom_text label.now ++ 40 ∷ []) (41 ∷ []) (show_fields (show_var bounds.depth store.now.equations) bounds.level bounds.left 1 fields.now))) }
{
    let head = atom_text(alloc, label)?;
    out.extend_from_slice(head.as_slice())?;
    out.push(b'(')?;
    let found = walk_fields(alloc, store, out, bounds, fields)?;
    match found {
        Found::Needs(y) => Ok(Found::Needs(y)),
        Found::Left(left) => {
            out.push(b')')?;
            Ok(Found::Left(left))
        }
    }
}

// Walks over fields.
#[cycle(walking)]
#[tactic(auto, using(crate::proofs::WalkLemmas::fields_on, crate::proofs::WalkLemmas::field_needs, crate::proofs::WalkLemmas::no_fields))]
fn walk_fields(
    alloc: Global,
    store: &Store,
    out: &mut Vec<u8>,
    mut bounds: Bounds,
    fields: &[(Feature, VarName)],
) -> Result<Found, AllocError>
    requires level { bounds.level ≤ 20 }
    ensures { IfOk result (λ f. text_end f out.new.items ≡ text_after out.old.items (show_fields (show_var bounds.depth store.now.equations) bounds.level bounds.left 1 fields.now)) }
{
    let mut rest = fields;
    let mut next = 1;
    'fields: while let Some((field, more)) = rest.split_first() {
        let name = field_name(alloc, next, &field.0)?;
        let front = name.as_slice();
        let found = walk_part(alloc, store, out, bounds, field.1, (front, gap(more)))?;
        match found {
            Found::Needs(y) => return Ok(Found::Needs(y)),
            Found::Left(left) => {
                bounds.left = left;
                next = next_feature(next, &field.0);
                rest = more;
            }
        }
    }
    Ok(Found::Left(bounds.left))
}
