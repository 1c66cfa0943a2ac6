//! Hashes of pairs of records, by which met pairs are found.

ghost use Rattle.std.specs.Prelude.{◌≡◌};
ghost use Rattle.unify_steps.specs.Hash.{hash_step, text_hash, fields_hash, hash_mix, node_hash, pair_hash};

use tree_node::{Feature, Node, VarName};

fn hash_step(hash: u64, number: u64) -> u64
    ensures { result ≡ hash_step hash number }
{
    hash.wrapping_mul(6_364_136_223_846_793_005)
        .wrapping_add(number)
}

fn hash_mix(hash: u64) -> u64
    ensures { result ≡ hash_mix hash }
{
    hash.wrapping_mul(hash.wrapping_mul(2).wrapping_add(1))
}

fn text_hash(mut hash: u64, text: &[u8]) -> u64
    ensures { result ≡ text_hash hash text.now }
{
    for byte in text {
        hash = hash_step(hash, *byte as u64);
    }
    hash
}

fn fields_hash(mut hash: u64, fields: &[(Feature, VarName)]) -> u64
    ensures { result ≡ fields_hash hash fields.now }
{
    for field in fields {
        hash = hash_step(hash_step(hash, field.1.site as u64), field.1.num);
    }
    hash
}

fn node_hash(node: &Node) -> u64
    ensures { result ≡ node_hash node.now }
{
    match node {
        Node::Rec(label, fields) => {
            hash_mix(fields_hash(text_hash(1, label.as_slice()), fields.as_slice()))
        }
        _ => 0,
    }
}

/// The hash of two nodes, in either order.
pub fn pair_hash(left: &Node, right: &Node) -> u64
    ensures { result ≡ pair_hash left.now right.now }
{
    node_hash(left).wrapping_add(node_hash(right))
}
