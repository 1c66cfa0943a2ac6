//! How far comparisons have come that are open. Each goes on from there, so that a pair that matches is looked at once,
//! however often more becomes known.

ghost use Rattle.std.specs.Prelude.{◌≡◌, Some, None, true, false, IfOk, IfSome, OnOk, OnErr, if◌then◌else◌};
ghost use Rattle.std.specs.Map.{lookup};
ghost use Rattle.tree_node.specs.Store.{root_of};
ghost use Rattle.tree_node.specs.Compare.{Pair, relation, IsMatched, compared};
ghost use Rattle.tree_node.specs.ClassPairs.{equal_pair, leads_to, all_new};
ghost use Rattle.tree_store.specs.Compared.{comparison_of};
ghost use Rattle.tree_store.specs.Front.{IsMatchedFront, IsAtUnmatched, HasGoneOn};

use crate::compare::{Compared, Finding, add_parts, find, search_on};
use crate::small_set::SmallSet;
use crate::store::Store;
use indexmap::IndexMap;
use std::alloc::{AllocError, Global};
use tree_node::VarName;

/// The pairs that a comparison has come to, by the names that their classes had then. Those before the place match,
/// whatever more becomes known.
#[derive(Drop)]
pub struct Front {
    pub pairs: Pairs,
    pub at: usize,
}

/// The fronts of comparisons that are open, each under the pair that is compared.
pub type Fronts = IndexMap<(VarName, VarName), Front>;

// Fronts of so many pairs are not kept.
const FEW_PAIRS: usize = 4;

/// Whether the front of a comparison that came to so many pairs is worth keeping. Few are sooner looked at again than put into a table and
/// taken from it.
pub fn are_many(pairs: usize) -> bool {
    pairs > FEW_PAIRS
}

/// Takes the front of a pair, if it has one.
#[tactic(auto, using(crate::proofs::FrontLemmas::none_kept))]
pub fn take(fronts: &mut Fronts, left: VarName, right: VarName) -> Option<Front>
    ensures front { result ≡ lookup (equal_pair (left, right)) fronts.old.entries }
    ensures rest { (p : Pair) → lookup (equal_pair p) fronts.new.entries ≡ (if equal_pair (left, right) p then None else lookup (equal_pair p) fronts.old.entries) }
{
    if fronts.is_empty() {
        return None;
    }
    fronts.swap_remove(&(left, right))
}

/// Keeps the front of a pair.
pub fn put(
    fronts: &mut Fronts,
    left: VarName,
    right: VarName,
    front: Front,
) -> Result<(), AllocError>
    ensures ok { OnOk result ((p : Pair) → lookup (equal_pair p) fronts.new.entries ≡ (if equal_pair (left, right) p then Some front else lookup (equal_pair p) fronts.old.entries)) }
    ensures err { OnErr result ((p : Pair) → lookup (equal_pair p) fronts.new.entries ≡ lookup (equal_pair p) fronts.old.entries) }
{
    fronts.insert((left, right), front)?;
    Ok(())
}

/// Pairs that a comparison comes to.
pub type Pairs = SmallSet<(VarName, VarName)>;

// The front with which a comparison begins, in the memory of pairs that are done with.
#[inline(always)]
fn begin(memory: Pairs, store: &Store, left: VarName, right: VarName) -> Result<Front, AllocError>
    ensures { IfOk result (λ f. IsMatchedFront (left, right) store.now.equations f.pairs f.at) }
{
    let mut pairs = memory;
    pairs.truncate(0);
    pairs.insert((store.class_of(left), store.class_of(right)))?;
    Ok(Front { pairs, at: 0 })
}

// What a pair leads to that matches goes behind the others. The answer is whether it matches.
fn pass(store: &Store, pairs: &mut Pairs, left: VarName, right: VarName) -> Result<bool, AllocError>
    requires left { root_of store.now.equations left ≡ left }
    requires right { root_of store.now.equations right ≡ right }
    ensures matches { IfOk result (λ b. b ≡ true → IsMatched (relation store.now.equations (left, right))) }
    ensures stops { IfOk result (λ b. b ≡ false → IsMatched (relation store.now.equations (left, right)) → ⊥) }
    ensures pairs { OnOk result (pairs.new ≡ all_new equal_pair pairs.old (leads_to store.now.equations (left, right))) }
    ensures same { IfOk result (λ b. b ≡ false → pairs.new ≡ pairs.old) }
{
    match find(store, left, right) {
        Finding::Alike => Ok(true),
        Finding::Parts(fields, others) => {
            add_parts(store, pairs, fields, others)?;
            Ok(true)
        }
        Finding::Apart => Ok(false),
        Finding::Unknown => Ok(false),
    }
}

// The front goes on over the pairs that match, to the first that does not.
#[tactic(auto, using(crate::proofs::FrontLemmas::class_named))]
fn pass_matched(store: &Store, front: &mut Front) -> Result<(), AllocError>
    ghost sides: { Pair }
    requires { IsMatchedFront sides store.now.equations front.old.pairs front.old.at }
    ensures front { OnOk result (IsMatchedFront sides store.now.equations front.new.pairs front.new.at) }
    ensures stops { OnOk result (IsAtUnmatched store.now.equations front.new.pairs front.new.at) }
    ensures goes_on { OnOk result (HasGoneOn front.old.pairs front.old.at front.new.pairs front.new.at) }
{
    store.forest();
    'pairs: while front.at < front.pairs.len() {
        let pair = front.pairs.key_at(front.at);
        let left = store.class_of(pair.0);
        let right = store.class_of(pair.1);
        let matches = pass(store, &mut front.pairs, left, right)?;
        if !matches {
            return Ok(());
        }
        front.at += 1;
    }
    Ok(())
}

/// A comparison of which nothing is kept, in the memory of pairs that are done with. It answers besides the pairs to which it came.
pub fn search(
    alloc: Global,
    memory: Pairs,
    store: &Store,
    left: VarName,
    right: VarName,
) -> Result<(Compared, Pairs), AllocError>
    ghost sides: { Pair }
    requires { sides ≡ (left, right) }
    ensures { IfOk result (λ r. comparison_of r.0 ≡ compared store.now.equations sides) }
{
    let Front { pairs, at } = begin(memory, store, left, right)?;
    let mut pairs = pairs;
    let compared = search_on(alloc, store, &mut pairs, at)?;
    Ok((compared, pairs))
}

/// How far a comparison comes: the front that has gone on over the pairs that match, to the first that does not.
pub fn first_front(
    alloc: Global,
    store: &Store,
    left: VarName,
    right: VarName,
) -> Result<Front, AllocError>
    ghost sides: { Pair }
    requires { sides ≡ (left, right) }
    ensures front { IfOk result (λ f. IsMatchedFront sides store.now.equations f.pairs f.at) }
    ensures stops { IfOk result (λ f. IsAtUnmatched store.now.equations f.pairs f.at) }
{
    let mut front = begin(SmallSet::new(alloc), store, left, right)?;
    pass_matched(store, &mut front)?;
    Ok(front)
}

/// A comparison goes on from what is kept of it. Beside what it answers it hands back the front, which has gone on over
/// the pairs that match, to the first that does not. Pairs behind that one are not kept, since parts that become known stand before them.
pub fn resume(
    alloc: Global,
    store: &Store,
    left: VarName,
    right: VarName,
    kept: Front,
) -> Result<(Compared, Front), AllocError>
    ghost sides: { Pair }
    requires sides { sides ≡ (left, right) }
    requires kept { IsMatchedFront sides store.now.equations kept.pairs kept.at }
    ensures answer { IfOk result (λ r. comparison_of r.0 ≡ compared store.now.equations sides) }
    ensures front { IfOk result (λ r. IsMatchedFront sides store.now.equations r.1.pairs r.1.at) }
    ensures stops { IfOk result (λ r. IsAtUnmatched store.now.equations r.1.pairs r.1.at) }
    ensures goes_on { IfOk result (λ r. HasGoneOn kept.pairs kept.at r.1.pairs r.1.at) }
{
    let mut front = kept;
    pass_matched(store, &mut front)?;
    let count = front.pairs.len();
    let compared = search_on(alloc, store, &mut front.pairs, front.at)?;
    front.pairs.truncate(count);
    Ok((compared, front))
}
