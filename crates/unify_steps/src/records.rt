//! The fields of two records.

ghost use Rattle.std.specs.Prelude.{◌≡◌, length, reverse, IfOk};
ghost use Rattle.tree_node.specs.Goal.{is_met_pair, field_pairs};

use std::alloc::{AllocError, Global};
use tree_node::{Feature, Node, Term, VarName, equal_text};

/// Whether the two nodes are among these pairs, in either order.
pub fn is_among(pairs: &[(Node, Node)], left: &Node, right: &Node) -> bool
    ensures { result ≡ is_met_pair pairs.now left.now right.now }
{
    pairs.iter().any(|pair| {
        (equal_text(&pair.0, left) && equal_text(&pair.1, right))
            || (equal_text(&pair.0, right) && equal_text(&pair.1, left))
    })
}

/// The pairs of the variables at each feature, the last first.
pub fn field_pairs(
    alloc: Global,
    left: &[(Feature, VarName)],
    right: &[(Feature, VarName)],
) -> Result<Vec<(Term, Term)>, AllocError>
    requires { length left.now ≡ length right.now }
    ensures { IfOk result (λ v. reverse v.items ≡ field_pairs left.now right.now) }
{
    let mut pairs = Vec::new(alloc);
    let mut at = left.len();
    'fields: while at > 0 {
        at -= 1;
        pairs.push((Term::Var(left[at].1), Term::Var(right[at].1)))?;
    }
    Ok(pairs)
}
