//! The fields of records and patterns.

ghost use Rattle.std.specs.Prelude.{◌≡◌, ◌+◌, ◌<◌, ◌≤◌, ◌^◌, [], drop, length, vec_len, IfOk, OnOk, insert};
ghost use Rattle.tree_node.specs.declared.limits.TheConstants.{MOST_ITEMS};
ghost use Rattle.oz_grammar.specs.Scoping.{has_feature, has_name, names_in, with_field};
ghost use Rattle.oz_grammar.specs.Faults.{feature_fault, name_fault, placed_fault};
ghost use Rattle.oz_grammar.specs.Table.{features_in};
ghost use Rattle.oz_grammar.specs.Reading.{fields_at, field_at, is_close_round};
ghost use Rattle.oz_phrases.specs.Fields.{insertion_point, field_name_of, field_with_feature_of, numbered_field_of};
ghost use Rattle.oz_phrases.specs.ReadAnswers.{IsReadAs};

use crate::scope::Scope;
use crate::signs::{is_close_round, sign};
use crate::stop::{Read, Stop, fault, mismatch};
use oz_grammar::{FaultKind, Numeral, Purpose, Sign, Symbol, What};
use std::alloc::{AllocError, Global};
use tree_node::{
    Feature, Integer, MOST_ITEMS, Text, compare_features, copy_feature, equal_feature,
};

/// Whether some field has a feature.
fn has_feature(fields: &[(Feature, Text)], feature: &Feature) -> bool
    ensures { result ≡ has_feature fields.now feature.now }
{
    fields.iter().any(|field| equal_feature(&field.0, feature))
}

/// Whether some field has a name.
fn has_field_name(fields: &[(Feature, Text)], name: &Text) -> bool
    ensures { result ≡ has_name (names_in fields.now) name.now }
{
    for field in fields {
        if field.1.as_slice() == name.as_slice() {
            return true;
        }
    }
    false
}

/// Whether a name is among these.
pub fn has_name(names: &[Text], name: &Text) -> bool
    ensures { result ≡ has_name names.now name.now }
{
    names
        .iter()
        .any(|other| other.as_slice() == name.as_slice())
}

/// How many fields stand before the first of a greater feature.
fn insertion_point(feature: &Feature, fields: &[(Feature, Text)]) -> usize
    ensures value { result ≡ insertion_point feature.now fields.now }
    ensures within { result ≤ length fields.now }
{
    for (at, field) in fields.iter().enumerate() {
        if compare_features(feature, &field.0).is_lt() {
            return at;
        }
    }
    fields.len()
}

/// One field more, in the order of features.
#[tactic(auto, using(crate::proofs::Placing::inserted))]
fn add_field(
    fields: &mut Vec<(Feature, Text)>,
    feature: Feature,
    name: Text,
) -> Result<(), AllocError>
    ensures fields { OnOk result (fields.new.items ≡ with_field feature name fields.old.items) }
    ensures count { OnOk result (vec_len fields.new ≡ vec_len fields.old + 1) }
{
    let at = insertion_point(&feature, fields.as_slice());
    match fields.insert(at, (feature, name)) {
        Ok(()) => Ok(()),
        Err(_) => Err(AllocError),
    }
}

/// What is wrong with a feature, where there is room for so many fields more.
fn feature_fault(room: u32, fields: &[(Feature, Text)], feature: &Feature) -> Option<FaultKind>
    ensures { result ≡ feature_fault room fields.now feature.now }
{
    if room == 0 {
        Some(FaultKind::Wide)
    } else if has_feature(fields, feature) {
        Some(FaultKind::Twice)
    } else {
        None
    }
}

/// What is wrong with the variable of a field.
fn name_fault(
    purpose: Purpose,
    scope: &Scope,
    fields: &[(Feature, Text)],
    name: &Text,
) -> Option<FaultKind>
    ensures { result ≡ name_fault purpose scope.now fields.now name.now }
{
    match purpose {
        Purpose::Use => match scope.position(name.as_slice()) {
            Some(_) => None,
            None => Some(FaultKind::Unbound),
        },
        Purpose::Declare => {
            if has_field_name(fields, name) {
                Some(FaultKind::Twice)
            } else {
                None
            }
        }
    }
}

/// Before a field in brackets: what the fields are for, for how many more there is room, and the feature of the next without
/// one.
#[derive(Clone, Copy)]
struct Brackets {
    purpose: Purpose,
    room: u32,
    next: u32,
}

/// What is wrong with a field without a feature.
fn placed_fault(
    at: Brackets,
    scope: &Scope,
    fields: &[(Feature, Text)],
    name: &Text,
) -> Option<FaultKind>
    ensures { result ≡ placed_fault at.purpose scope.now at.room fields.now at.next name.now }
{
    match feature_fault(
        at.room,
        fields,
        &Feature::Int(Integer::new(i128::from(at.next))),
    ) {
        Some(kind) => Some(kind),
        None => name_fault(at.purpose, scope, fields, name),
    }
}

/// The variable behind the feature of a field.
fn field_name<'t>(
    at: Brackets,
    scope: &Scope,
    fields: &mut Vec<(Feature, Text)>,
    feature: Feature,
    symbols: &'t [Symbol],
) -> Read<'t, u32>
    ensures read { IsReadAs (λ x. (fields.new.items, x.0, x.1.now)) result (field_name_of at.purpose scope.now fields.old.items at.next feature symbols.now) }
    ensures shorter { IfOk result (λ x. length x.1.now + 1 ≡ length symbols.now) }
    ensures next { IfOk result (λ x. x.0 ≡ at.next) }
    ensures count { OnOk result (vec_len fields.new ≡ vec_len fields.old + 1) }
{
    match symbols {
        [Symbol::Variable(name), rest @ ..] => {
            match name_fault(at.purpose, scope, fields.as_slice(), name) {
                Some(kind) => Err(fault(kind, symbols)),
                None => {
                    add_field(fields, feature, name.copy()?)?;
                    Ok((at.next, rest))
                }
            }
        }
        _ => Err(mismatch(What::Variable, symbols)),
    }
}

/// A field whose feature stands at the front.
fn field_with_feature<'t>(
    at: Brackets,
    scope: &Scope,
    fields: &mut Vec<(Feature, Text)>,
    feature: Feature,
    symbols: &'t [Symbol],
) -> Read<'t, u32>
    requires { 0 < length symbols.now }
    ensures read { IsReadAs (λ x. (fields.new.items, x.0, x.1.now)) result (field_with_feature_of at.purpose scope.now at.room fields.old.items at.next feature symbols.now (drop 1 symbols.now)) }
    ensures shorter { IfOk result (λ x. length x.1.now < length symbols.now) }
    ensures next { IfOk result (λ x. x.0 ≡ at.next) }
    ensures count { OnOk result (vec_len fields.new ≡ vec_len fields.old + 1) }
{
    match feature_fault(at.room, fields.as_slice(), &feature) {
        Some(kind) => Err(fault(kind, symbols)),
        None => {
            let behind = sign(Sign::Colon, symbols.split_at(1).1)?;
            field_name(at, scope, fields, feature, behind)
        }
    }
}

/// A field with an integer at the front.
fn numbered_field<'t>(
    at: Brackets,
    scope: &Scope,
    fields: &mut Vec<(Feature, Text)>,
    value: &Option<Numeral>,
    symbols: &'t [Symbol],
) -> Read<'t, u32>
    requires { 0 < length symbols.now }
    ensures read { IsReadAs (λ x. (fields.new.items, x.0, x.1.now)) result (numbered_field_of at.purpose scope.now at.room fields.old.items at.next value.now symbols.now (drop 1 symbols.now)) }
    ensures shorter { IfOk result (λ x. length x.1.now < length symbols.now) }
    ensures next { IfOk result (λ x. x.0 ≡ at.next) }
    ensures count { OnOk result (vec_len fields.new ≡ vec_len fields.old + 1) }
{
    match value {
        None => Err(fault(FaultKind::Number, symbols)),
        Some(value) => field_with_feature(
            at,
            scope,
            fields,
            Feature::Int(Integer::new(value.get())),
            symbols,
        ),
    }
}

/// A field behind others, and the feature of the next without one behind it.
#[tactic(auto, using(crate::proofs::Unfold::number_read))]
fn field<'t>(
    at: Brackets,
    scope: &Scope,
    fields: &mut Vec<(Feature, Text)>,
    symbols: &'t [Symbol],
) -> Read<'t, u32>
    requires { at.next < 2 ^ 31 }
    ensures read { IsReadAs (λ x. (fields.new.items, x.0, x.1.now)) result (field_at at.purpose scope.now at.room fields.old.items at.next symbols.now) }
    ensures shorter { IfOk result (λ x. length x.1.now < length symbols.now) }
    ensures next { IfOk result (λ x. x.0 ≤ at.next + 1) }
    ensures count { OnOk result (vec_len fields.new ≡ vec_len fields.old + 1) }
{
    match symbols {
        [Symbol::Variable(name), rest @ ..] => {
            match placed_fault(at, scope, fields.as_slice(), name) {
                Some(kind) => Err(fault(kind, symbols)),
                None => {
                    add_field(
                        fields,
                        Feature::Int(Integer::new(i128::from(at.next))),
                        name.copy()?,
                    )?;
                    Ok((at.next + 1, rest))
                }
            }
        }
        [Symbol::Atom(text), ..] => {
            field_with_feature(at, scope, fields, Feature::Atom(text.copy()?), symbols)
        }
        [Symbol::Integer(value), ..] => numbered_field(at, scope, fields, value, symbols),
        _ => Err(mismatch(What::FieldOrBracket, symbols)),
    }
}

/// The fields up to the closing bracket, in the order of features: at most 64.
#[tactic(auto, using(crate::proofs::Unfold::fields_round, crate::proofs::Unfold::fields_zero, crate::proofs::Unfold::fields_some))]
pub fn fields_in_brackets<'t>(
    alloc: Global,
    purpose: Purpose,
    scope: &Scope,
    symbols: &'t [Symbol],
) -> Read<'t, Vec<(Feature, Text)>>
    ensures read { IsReadAs (λ x. (x.0.items, x.1.now)) result (fields_at purpose scope.now MOST_ITEMS [] 1 symbols.now) }
    ensures shorter { IfOk result (λ x. vec_len x.0 + length x.1.now < length symbols.now) }
{
    let mut fields = Vec::new(alloc);
    let mut room: u32 = MOST_ITEMS;
    let mut next: u32 = 1;
    let mut rest = symbols;
    loop {
        if is_close_round(rest) {
            return Ok((fields, rest.split_at(1).1));
        }
        let at = Brackets {
            purpose,
            room,
            next,
        };
        let (following, behind) = field(at, scope, &mut fields, rest)?;
        if room == 0 {
            return Ok((fields, behind));
        }
        room -= 1;
        next = following;
        rest = behind;
    }
}

/// The features of fields.
pub fn features(alloc: Global, fields: &[(Feature, Text)]) -> Result<Vec<Feature>, AllocError>
    ensures { IfOk result (λ v. v.items ≡ features_in fields.now) }
{
    let mut features = Vec::new(alloc);
    for field in fields {
        features.push(copy_feature(&field.0)?)?;
    }
    Ok(features)
}

/// The names of fields.
pub fn names(alloc: Global, fields: &[(Feature, Text)]) -> Result<Vec<Text>, AllocError>
    ensures names { IfOk result (λ v. v.items ≡ names_in fields.now) }
    ensures count { IfOk result (λ v. vec_len v ≡ length fields.now) }
{
    let mut names = Vec::new(alloc);
    for field in fields {
        names.push(field.1.copy()?)?;
    }
    Ok(names)
}
