//! Lists of names that are declared.

ghost use Rattle.std.specs.Prelude.{◌≡◌, ◌+◌, ◌<◌, ◌≤◌, [], length, vec_len, IfOk};
ghost use Rattle.tree_node.specs.declared.limits.TheConstants.{MOST_ITEMS};
ghost use Rattle.oz_grammar.specs.Faults.{count_fault, formal_fault};
ghost use Rattle.oz_grammar.specs.Reading.{locals_at, first_local_at, formals_at};
ghost use Rattle.oz_phrases.specs.ReadAnswers.{IsReadAs};

use crate::fields::has_name;
use crate::stop::{Read, Stop, fault, mismatch};
use oz_grammar::{FaultKind, Symbol, What};
use std::alloc::Global;
use tree_node::{MOST_ITEMS, Text};

/// What is wrong with one item more than so many.
pub fn count_fault(count: usize) -> Option<FaultKind>
    ensures { result ≡ count_fault count }
{
    if count < MOST_ITEMS as usize {
        None
    } else {
        Some(FaultKind::Wide)
    }
}

/// The names of a `local` behind those before, up to `in`.
fn locals<'t>(mut names: Vec<Text>, symbols: &'t [Symbol]) -> Read<'t, Vec<Text>>
    requires { vec_len names ≤ MOST_ITEMS }
    ensures read { IsReadAs (λ x. (x.0.items, x.1.now)) result (locals_at names.items symbols.now) }
    ensures shorter { IfOk result (λ x. vec_len x.0 + length x.1.now < vec_len names + length symbols.now) }
    ensures count { IfOk result (λ x. vec_len x.0 ≤ MOST_ITEMS) }
{
    let mut rest = symbols;
    loop {
        match rest {
            [Symbol::In, behind @ ..] => return Ok((names, behind)),
            [Symbol::Variable(name), behind @ ..] => match count_fault(names.len()) {
                Some(kind) => return Err(fault(kind, rest)),
                None => {
                    names.push(name.copy()?)?;
                    rest = behind;
                }
            },
            _ => return Err(mismatch(What::VariableOrIn, rest)),
        }
    }
}

/// The names of a `local`.
pub fn first_local<'t>(alloc: Global, symbols: &'t [Symbol]) -> Read<'t, Vec<Text>>
    ensures read { IsReadAs (λ x. (x.0.items, x.1.now)) result (first_local_at symbols.now) }
    ensures shorter { IfOk result (λ x. vec_len x.0 + length x.1.now < length symbols.now) }
    ensures count { IfOk result (λ x. vec_len x.0 ≤ MOST_ITEMS) }
{
    match symbols {
        [Symbol::Variable(name), rest @ ..] => {
            let names = vec![in alloc; name.copy()?]?;
            locals(names, rest)
        }
        _ => Err(mismatch(What::Variable, symbols)),
    }
}

/// What is wrong with one formal more.
fn formal_fault(names: &[Text], name: &Text) -> Option<FaultKind>
    ensures { result ≡ formal_fault names.now name.now }
{
    match count_fault(names.len()) {
        Some(kind) => Some(kind),
        None => {
            if has_name(names, name) {
                Some(FaultKind::Twice)
            } else {
                None
            }
        }
    }
}

/// The formals of a procedure.
pub fn formals<'t>(alloc: Global, symbols: &'t [Symbol]) -> Read<'t, Vec<Text>>
    ensures read { IsReadAs (λ x. (x.0.items, x.1.now)) result (formals_at [] symbols.now) }
    ensures shorter { IfOk result (λ x. vec_len x.0 + length x.1.now < length symbols.now) }
    ensures count { IfOk result (λ x. vec_len x.0 ≤ MOST_ITEMS) }
{
    let mut names = Vec::new(alloc);
    let mut rest = symbols;
    loop {
        match rest {
            [Symbol::CloseCurly, behind @ ..] => return Ok((names, behind)),
            [Symbol::Variable(name), behind @ ..] => match formal_fault(names.as_slice(), name) {
                Some(kind) => return Err(fault(kind, rest)),
                None => {
                    names.push(name.copy()?)?;
                    rest = behind;
                }
            },
            _ => return Err(mismatch(What::VariableOrClose, rest)),
        }
    }
}
