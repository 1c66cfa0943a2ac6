//! How many new identifiers parts take.

ghost use Rattle.std.specs.Prelude.{◌≡◌, ◌≤◌, length};
ghost use Rattle.kernel_syntax.specs.Sugar.{new_of, new_in};
ghost use Rattle.kernel_syntax.specs.SugarView.{value_of, values_in, parts_in};

use kernel_syntax::sugar::{Pair, Value};

/// How many new identifiers a part takes.
pub fn new_of(value: &Value) -> usize
    ensures value { result ≡ new_of (value_of value.now) }
    ensures few { result ≤ 1 }
{
    match value {
        Value::Variable(..) => 0,
        _ => 1,
    }
}

/// How many the parts of a list take.
pub fn new_in(values: &[Value]) -> usize
    ensures value { result ≡ new_in (values_in values.now) }
    ensures few { result ≤ length values.now }
{
    let mut count = 0;
    for value in values {
        count += new_of(value);
    }
    count
}

/// How many a head and a tail take.
#[tactic(auto, using(crate::proofs::Pairs::new_two))]
pub fn new_in_pair(pair: &Pair) -> usize
    ensures value { result ≡ new_in (parts_in pair.now) }
    ensures few { result ≤ 2 }
{
    match pair {
        Pair::Of(head, tail) => new_of(head) + new_of(tail),
    }
}
