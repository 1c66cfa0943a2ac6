//! Patterns.

ghost use Rattle.std.specs.Prelude.{◌≡◌, ◌+◌, ◌<◌, ◌≤◌, length, vec_len, IfOk};
ghost use Rattle.oz_grammar.specs.Table.{record_pattern};
ghost use Rattle.oz_grammar.specs.Reading.{pair_pattern_at, record_pattern_at, pattern_at};
ghost use Rattle.oz_phrases.specs.ReadAnswers.{IsReadAs};
ghost use Rattle.oz_phrases.specs.Patterns.{pair_pattern};

use crate::fields::{features, fields_in_brackets, names};
use crate::scope::Scope;
use crate::signs::sign;
use crate::stop::{Stop, fault, mismatch};
use kernel_syntax::{Features, Pattern};
use oz_grammar::{FaultKind, Purpose, Sign, Symbol, What};
use std::alloc::{AllocError, Global};
use tree_node::{Feature, Integer, Text};

fn record_pattern(label: Text, features: Vec<Feature>) -> Pattern
    ensures { result ≡ record_pattern label features.items }
{
    if features.is_empty() {
        Pattern::Atom(label)
    } else {
        Pattern::Rec(label, Features::from_vec(features))
    }
}

/// The pattern `H|T` with the features 1 and 2.
fn pair_features(alloc: Global) -> Result<Pattern, AllocError>
    ensures { IfOk result (λ p. p ≡ pair_pattern) }
{
    let label = Text::from_vec(Vec::from_slice(alloc, b"|")?)?;
    let features = vec![in alloc;
        Feature::Int(Integer::new(1)),
        Feature::Int(Integer::new(2)),
    ]?;
    Ok(Pattern::Rec(label, Features::from_vec(features)))
}

/// The second variable of `H|T`.
fn pair_pattern<'t>(
    alloc: Global,
    head: &Text,
    symbols: &'t [Symbol],
) -> Result<(Pattern, Vec<Text>, &'t [Symbol]), Stop>
    ensures read { IsReadAs (λ x. (x.0, x.1.items, x.2.now)) result (pair_pattern_at head.now symbols.now) }
    ensures shorter { IfOk result (λ x. (vec_len x.1 ≤ 2) × (length x.2.now + 1 ≡ length symbols.now)) }
{
    match symbols {
        [Symbol::Variable(tail), rest @ ..] => {
            if head.as_slice() == tail.as_slice() {
                return Err(fault(FaultKind::Twice, symbols));
            }
            let pattern = pair_features(alloc)?;
            let names = vec![in alloc; head.copy()?, tail.copy()?]?;
            Ok((pattern, names, rest))
        }
        _ => Err(mismatch(What::Variable, symbols)),
    }
}

/// What may follow the atom of a pattern.
fn atom_pattern<'t>(
    alloc: Global,
    label: &Text,
    scope: &Scope,
    symbols: &'t [Symbol],
) -> Result<(Pattern, Vec<Text>, &'t [Symbol]), Stop>
    ensures read { IsReadAs (λ x. (x.0, x.1.items, x.2.now)) result (record_pattern_at label.now scope.now symbols.now) }
    ensures shorter { IfOk result (λ x. vec_len x.1 + length x.2.now ≤ length symbols.now) }
{
    match symbols {
        [Symbol::OpenRound, rest @ ..] => {
            let (fields, behind) = fields_in_brackets(alloc, Purpose::Declare, scope, rest)?;
            let features = features(alloc, fields.as_slice())?;
            let names = names(alloc, fields.as_slice())?;
            Ok((record_pattern(label.copy()?, features), names, behind))
        }
        _ => Ok((Pattern::Atom(label.copy()?), Vec::new(alloc), symbols)),
    }
}

/// A pattern, with the names that it declares in the order of features.
pub fn pattern<'t>(
    alloc: Global,
    scope: &Scope,
    symbols: &'t [Symbol],
) -> Result<(Pattern, Vec<Text>, &'t [Symbol]), Stop>
    ensures read { IsReadAs (λ x. (x.0, x.1.items, x.2.now)) result (pattern_at scope.now symbols.now) }
    ensures shorter { IfOk result (λ x. vec_len x.1 + length x.2.now < length symbols.now) }
{
    match symbols {
        [Symbol::Integer(Some(value)), rest @ ..] => Ok((
            Pattern::Int(Integer::new(value.get())),
            Vec::new(alloc),
            rest,
        )),
        [Symbol::Integer(None), ..] => Err(fault(FaultKind::Number, symbols)),
        [Symbol::Atom(label), rest @ ..] => atom_pattern(alloc, label, scope, rest),
        [Symbol::Variable(head), rest @ ..] => {
            let behind = sign(Sign::Bar, rest)?;
            pair_pattern(alloc, head, behind)
        }
        _ => Err(mismatch(What::Pattern, symbols)),
    }
}
