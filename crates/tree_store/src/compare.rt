//! Two variables are compared, with their parts, breadth first.

ghost use Rattle.std.specs.Prelude.{◌≡◌, map, length, take, false, Some, IfOk, OnOk};
ghost use Rattle.tree_node.specs.Store.{equal_var, root_of};
ghost use Rattle.tree_node.specs.Compare.{Pair, relation, relation_of_nodes, relation_of_others, is_apart, is_one_class, open_root, open_roots, paired, compared, unless_open as open_or_equal};
ghost use Rattle.tree_node.specs.ClassPairs.{equal_pair, roots, leads_to, all_new};
ghost use Rattle.tree_store.specs.Compared.{comparison_of, IsFinding};
ghost use Rattle.tree_store.specs.Front.{IsMatchedFront};

use crate::small_set::SmallSet;
use crate::store::{Root, Store};
use std::alloc::{AllocError, Global};
use tree_node::{Feature, Node, VarList, VarName, equal_bytes, equal_features, equal_text};

/// What a store tells of two variables: they are equal, or different, or these variables, which have no node, are open in them.
#[derive(Drop)]
pub enum Compared {
    Equal,
    Different,
    Open(VarList),
}

/// What a pair tells by itself: its sides are equal, or different, or as the fields of these two records are, or it is not
/// known yet.
#[derive(Clone, Copy)]
pub enum Finding<'a> {
    Alike,
    Apart,
    Parts(&'a [(Feature, VarName)], &'a [(Feature, VarName)]),
    Unknown,
}

// What two nodes tell that are not of equal text.
#[tactic(auto, using(tree_node::proofs::FieldLemmas::features_same_length))]
fn find_by_others<'a>(left: &'a Node, right: &'a Node) -> Finding<'a>
    ensures { IsFinding (relation_of_others left.now right.now) result }
{
    match (left, right) {
        (Node::Rec(label, fields), Node::Rec(other, others)) => {
            let fields = fields.as_slice();
            let others = others.as_slice();
            if !equal_bytes(label, other) || !equal_features(fields, others) {
                return Finding::Apart;
            }
            Finding::Parts(fields, others)
        }
        _ => Finding::Apart,
    }
}

// What two nodes tell.
fn find_by_nodes<'a>(left: &'a Node, right: &'a Node) -> Finding<'a>
    ensures { IsFinding (relation_of_nodes (Some left.now) (Some right.now)) result }
{
    if equal_text(left, right) {
        return Finding::Alike;
    }
    find_by_others(left, right)
}

/// What two variables tell that stand for their classes.
#[inline(always)]
pub fn find(store: &Store, left: VarName, right: VarName) -> Finding<'_>
    requires left { root_of store.now.equations left ≡ left }
    requires right { root_of store.now.equations right ≡ right }
    ensures { IsFinding (relation store.now.equations (left, right)) result }
{
    if left == right {
        return Finding::Alike;
    }
    match store.root_of(left) {
        Root::Unbound(_) => Finding::Unknown,
        Root::Node(node) => match store.root_of(right) {
            Root::Unbound(_) => Finding::Unknown,
            Root::Node(other) => find_by_nodes(node, other),
        },
    }
}

/// The classes of the fields of two records go behind the pairs, those that are not there yet.
pub fn add_parts(
    store: &Store,
    pairs: &mut SmallSet<(VarName, VarName)>,
    fields: &[(Feature, VarName)],
    others: &[(Feature, VarName)],
) -> Result<(), AllocError>
    requires { length fields.now ≡ length others.now }
    ensures { OnOk result (pairs.new ≡ all_new equal_pair pairs.old (map (roots store.now.equations) (paired fields.now others.now))) }
{
    for (at, field) in fields.iter().enumerate() {
        let left = store.class_of(field.1);
        let right = store.class_of(others[at].1);
        pairs.insert((left, right))?;
    }
    Ok(())
}

// A variable that stands for its class goes behind the open ones, if the class has no node.
#[inline(always)]
fn add_open(
    store: &Store,
    open_vars: &mut SmallSet<VarName>,
    var: VarName,
) -> Result<(), AllocError>
    requires { root_of store.now.equations var ≡ var }
    ensures { OnOk result (open_vars.new ≡ all_new equal_var open_vars.old (open_root store.now.equations var)) }
{
    match store.root_of(var) {
        Root::Unbound(_) => {
            open_vars.insert(var)?;
            Ok(())
        }
        Root::Node(_) => Ok(()),
    }
}

// The open variables of a pair of two classes go behind the others, the left one first.
fn add_both(
    store: &Store,
    open_vars: &mut SmallSet<VarName>,
    left: VarName,
    right: VarName,
) -> Result<(), AllocError>
    requires left { root_of store.now.equations left ≡ left }
    requires right { root_of store.now.equations right ≡ right }
    requires apart { is_one_class store.now.equations (left, right) ≡ false }
    ensures { OnOk result (open_vars.new ≡ all_new equal_var open_vars.old (open_roots store.now.equations (left, right))) }
{
    add_open(store, open_vars, left)?;
    add_open(store, open_vars, right)?;
    Ok(())
}

// A pair is looked at: what it leads to, or what is open, goes behind the others. The answer is whether it is apart.
fn visit(
    store: &Store,
    pairs: &mut SmallSet<(VarName, VarName)>,
    open_vars: &mut SmallSet<VarName>,
    left: VarName,
    right: VarName,
) -> Result<bool, AllocError>
    requires left { root_of store.now.equations left ≡ left }
    requires right { root_of store.now.equations right ≡ right }
    ensures apart { IfOk result (λ b. b ≡ is_apart (relation store.now.equations (left, right))) }
    ensures pairs { OnOk result (pairs.new ≡ all_new equal_pair pairs.old (leads_to store.now.equations (left, right))) }
    ensures open_ones { OnOk result (open_vars.new ≡ all_new equal_var open_vars.old (open_roots store.now.equations (left, right))) }
{
    match find(store, left, right) {
        Finding::Alike => Ok(false),
        Finding::Apart => Ok(true),
        Finding::Parts(fields, others) => {
            add_parts(store, pairs, fields, others)?;
            Ok(false)
        }
        Finding::Unknown => {
            add_both(store, open_vars, left, right)?;
            Ok(false)
        }
    }
}

// The answer where nothing differs.
fn unless_open(open_vars: SmallSet<VarName>) -> Result<Compared, AllocError>
    ensures { IfOk result (λ c. comparison_of c ≡ open_or_equal open_vars) }
{
    if open_vars.len() == 0 {
        return Ok(Compared::Equal);
    }
    let vars = open_vars.into_vec()?;
    Ok(Compared::Open(VarList::from_vec(vars)))
}

/// Whether two variables are equal or different for all that a store tells, or which variables are open in them. The search begins
/// with these pairs, of which the first `at` match, and looks at the others. A pair whose classes stand in the list by their
/// present names is not added again, so it ends on cyclic values too.
#[tactic(auto, using(crate::proofs::FrontLemmas::class_named))]
pub fn search_on(
    alloc: Global,
    store: &Store,
    pairs: &mut SmallSet<(VarName, VarName)>,
    mut at: usize,
) -> Result<Compared, AllocError>
    ghost sides: { Pair }
    requires { IsMatchedFront sides store.now.equations pairs.old at }
    ensures answer { IfOk result (λ c. comparison_of c ≡ compared store.now.equations sides) }
    ensures front { OnOk result (take (length pairs.old) pairs.new ≡ pairs.old) }
{
    store.forest();
    let mut open_vars = SmallSet::new(alloc);
    'pairs: while at < pairs.len() {
        let pair = pairs.key_at(at);
        let left = store.class_of(pair.0);
        let right = store.class_of(pair.1);
        let is_apart = visit(store, pairs, &mut open_vars, left, right)?;
        if is_apart {
            return Ok(Compared::Different);
        }
        at += 1;
    }
    unless_open(open_vars)
}
