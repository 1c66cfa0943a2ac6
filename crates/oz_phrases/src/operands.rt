//! Identifiers that are used, what a selection selects by, the places of threads, and the name in `catch`.

ghost use Rattle.std.specs.Prelude.{◌≡◌, ◌+◌, ◌<◌, ◌^◌, length, IfOk};
ghost use Rattle.oz_grammar.specs.Reading.{used_variable_at, selection_at, site_at, catch_name_at};
ghost use Rattle.oz_phrases.specs.ReadAnswers.{IsReadAs};

use crate::scope::Scope;
use crate::stop::{Read, Stop, fault, mismatch};
use kernel_syntax::Selector;
use oz_grammar::{FaultKind, Symbol, What};
use tree_node::{Feature, Integer, Text};

/// The position of the used variable at the front.
pub fn used_variable<'t>(what: What, scope: &Scope, symbols: &'t [Symbol]) -> Read<'t, u32>
    requires { length scope.now < 2 ^ 32 }
    ensures read { IsReadAs (λ x. (x.0, x.1.now)) result (used_variable_at what scope.now symbols.now) }
    ensures shorter { IfOk result (λ x. length x.1.now + 1 ≡ length symbols.now) }
{
    match symbols {
        [Symbol::Variable(name), rest @ ..] => match scope.position(name.as_slice()) {
            Some(position) => Ok((position as u32, rest)),
            None => Err(fault(FaultKind::Unbound, symbols)),
        },
        _ => Err(mismatch(what, symbols)),
    }
}

/// What a selection selects by.
pub fn selection<'t>(scope: &Scope, symbols: &'t [Symbol]) -> Read<'t, Selector>
    requires { length scope.now < 2 ^ 32 }
    ensures read { IsReadAs (λ x. (x.0, x.1.now)) result (selection_at scope.now symbols.now) }
    ensures shorter { IfOk result (λ x. length x.1.now + 1 ≡ length symbols.now) }
{
    match symbols {
        [Symbol::Variable(name), rest @ ..] => match scope.position(name.as_slice()) {
            Some(position) => Ok((Selector::Var(position as u32), rest)),
            None => Err(fault(FaultKind::Unbound, symbols)),
        },
        [Symbol::Atom(text), rest @ ..] => {
            let feature = Feature::Atom(text.copy()?);
            Ok((Selector::Feature(feature), rest))
        }
        [Symbol::Integer(Some(value)), rest @ ..] => {
            Ok((
                Selector::Feature(Feature::Int(Integer::new(value.get()))),
                rest,
            ))
        }
        [Symbol::Integer(None), ..] => Err(fault(FaultKind::Number, symbols)),
        _ => Err(mismatch(What::VariableOrFeature, symbols)),
    }
}

/// The site of a thread.
pub fn site(symbols: &[Symbol]) -> Result<(i128, &[Symbol]), Stop>
    ensures read { IsReadAs (λ x. (x.0, x.1.now)) result (site_at symbols.now) }
    ensures shorter { IfOk result (λ x. length x.1.now + 1 ≡ length symbols.now) }
{
    match symbols {
        [Symbol::Integer(Some(value)), rest @ ..] => {
            let site = value.get();
            if site < 1 {
                Err(fault(FaultKind::Site, symbols))
            } else {
                Ok((site, rest))
            }
        }
        [Symbol::Integer(None), ..] => Err(fault(FaultKind::Number, symbols)),
        _ => Err(mismatch(What::Integer, symbols)),
    }
}

/// The name that `catch` declares.
pub fn catch_name(symbols: &[Symbol]) -> Result<(Text, &[Symbol]), Stop>
    ensures read { IsReadAs (λ x. (x.0, x.1.now)) result (catch_name_at symbols.now) }
    ensures shorter { IfOk result (λ x. length x.1.now + 1 ≡ length symbols.now) }
{
    match symbols {
        [Symbol::Variable(name), rest @ ..] => Ok((name.copy()?, rest)),
        _ => Err(mismatch(What::Variable, symbols)),
    }
}
