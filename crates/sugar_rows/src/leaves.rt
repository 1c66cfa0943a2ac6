//! Rows without bodies, and copies of what a tree holds.

ghost use Rattle.std.specs.Prelude.{◌≡◌, [], ◌∷◌, slice_index, IfOk};
ghost use Rattle.oz_grammar.specs.Table.{built_in_row};
ghost use Rattle.sugar_rows.specs.Put.{slot_places, operation_row, action_row, placed_selector, field_place};

use kernel_syntax::sugar::{Action, Field, Operation};
use kernel_syntax::{Bodies, BuiltIn, Features, Pattern, Positions, Selector, Slots, Stmt};
use std::alloc::{AllocError, Global};
use tree_node::{CodeId, Feature, copy_feature};

/// A position of a list, 0 where it has none there.
pub fn position_at(positions: &[u32], at: usize) -> u32
    ensures { result ≡ slice_index positions.now at }
{
    if at < positions.len() {
        positions[at]
    } else {
        0
    }
}

/// Two statements in the order in which they run.
pub fn two_bodies(alloc: Global, first: CodeId, second: CodeId) -> Result<Bodies, AllocError>
    ensures { IfOk result (λ b. b ≡ first ∷ second ∷ []) }
{
    let mut bodies = Bodies::new(alloc);
    bodies.push(first)?;
    bodies.push(second)?;
    Ok(bodies)
}

fn built_in_row(built_in: BuiltIn, positions: &[u32]) -> Stmt
    ensures { result ≡ built_in_row built_in positions.now }
{
    match built_in {
        BuiltIn::Browse => Stmt::Browse(position_at(positions, 0)),
        BuiltIn::Wait => Stmt::Wait(position_at(positions, 0)),
        BuiltIn::NewCell => Stmt::NewCell {
            content: position_at(positions, 0),
            cell: position_at(positions, 1),
        },
        BuiltIn::Exchange => Stmt::Exchange {
            cell: position_at(positions, 0),
            old: position_at(positions, 1),
            new: position_at(positions, 2),
        },
        BuiltIn::NewPort => Stmt::NewPort {
            stream: position_at(positions, 0),
            port: position_at(positions, 1),
        },
        BuiltIn::Send => Stmt::Send {
            port: position_at(positions, 0),
            value: position_at(positions, 1),
        },
        BuiltIn::NewCellAt => Stmt::NewCellAt {
            content: position_at(positions, 0),
            cell: position_at(positions, 1),
            at: position_at(positions, 2),
        },
    }
}

fn placed_selector(selector: &Selector, places: &[u32]) -> Result<Selector, AllocError>
    ensures { IfOk result (λ s. s ≡ placed_selector places.now selector.now) }
{
    match selector {
        Selector::Var(position) => Ok(Selector::Var(position_at(places, *position as usize))),
        Selector::Feature(feature) => Ok(Selector::Feature(copy_feature(feature)?)),
    }
}

/// The positions of the parts of an operator or a test.
pub fn operands(parts: &[u32]) -> (u32, u32)
    ensures left { result.0 ≡ slice_index parts.now 0 }
    ensures right { result.1 ≡ slice_index parts.now 1 }
{
    (position_at(parts, 0), position_at(parts, 1))
}

/// The row of a value with parts at these positions, told to another.
pub fn operation_row(
    operation: &Operation,
    places: &[u32],
    mut parts: Vec<u32>,
    told: u32,
) -> Result<Stmt, AllocError>
    ensures { IfOk result (λ r. r ≡ operation_row places.now operation.now parts.items told) }
{
    match operation {
        Operation::Calc(op) => {
            let (a, b) = operands(parts.as_slice());
            let (left, op) = (told, *op);
            Ok(Stmt::Calc { left, op, a, b })
        }
        Operation::Test(op) => {
            let (a, b) = operands(parts.as_slice());
            let (left, op) = (told, *op);
            Ok(Stmt::Test { left, op, a, b })
        }
        Operation::Select(selector) => Ok(Stmt::Select {
            left: told,
            source: position_at(parts.as_slice(), 0),
            by: placed_selector(selector, places)?,
        }),
        Operation::Call(callee) => {
            parts.push(told)?;
            Ok(Stmt::Call {
                callee: position_at(places, *callee as usize),
                args: Positions::from_vec(parts),
            })
        }
        Operation::BuiltIn(built_in) => {
            parts.push(told)?;
            Ok(built_in_row(*built_in, parts.as_slice()))
        }
    }
}

/// The row of a statement with parts at these positions.
pub fn action_row(action: Action, places: &[u32], parts: Vec<u32>) -> Stmt
    ensures { result ≡ action_row places.now action parts.items }
{
    match action {
        Action::Call(callee) => Stmt::Call {
            callee: position_at(places, callee as usize),
            args: Positions::from_vec(parts),
        },
        Action::BuiltIn(built_in) => built_in_row(built_in, parts.as_slice()),
        Action::Raise => Stmt::Raise(position_at(parts.as_slice(), 0)),
    }
}

fn field_place(part: Field, places: &[u32], first: u32) -> Result<u32, AllocError>
    ensures { IfOk result (λ k. k ≡ field_place places.now first part) }
{
    match part {
        Field::Variable(position) => Ok(position_at(places, position as usize)),
        Field::Value(number) => match first.checked_add(number) {
            Some(position) => Ok(position),
            None => Err(AllocError),
        },
    }
}

fn slot_place(
    slot: &(Feature, Field),
    places: &[u32],
    first: u32,
) -> Result<(Feature, u32), AllocError>
    ensures { IfOk result (λ s. s ≡ (slot.now.0, field_place places.now first slot.now.1)) }
{
    Ok((copy_feature(&slot.0)?, field_place(slot.1, places, first)?))
}

fn many_slot_places(
    alloc: Global,
    slots: &[(Feature, Field)],
    places: &[u32],
    first: u32,
) -> Result<Vec<(Feature, u32)>, AllocError>
    ensures { IfOk result (λ v. v.items ≡ slot_places places.now first slots.now) }
{
    let mut placed = Vec::with_capacity(alloc, slots.len())?;
    for slot in slots {
        placed.push(slot_place(slot, places, first)?)?;
    }
    Ok(placed)
}

/// The fields of a record with their positions, where new identifiers have positions from `first` on.
pub fn slot_places(
    alloc: Global,
    slots: &[(Feature, Field)],
    places: &[u32],
    first: u32,
) -> Result<Slots, AllocError>
    ensures { IfOk result (λ s. s ≡ slot_places places.now first slots.now) }
{
    match slots {
        [only] => Ok(Slots::one(slot_place(only, places, first)?)),
        [one, other] => {
            let placed = slot_place(one, places, first)?;
            Ok(Slots::two(placed, slot_place(other, places, first)?))
        }
        _ => Ok(Slots::from_vec(many_slot_places(alloc, slots, places, first)?)),
    }
}

fn copy_features(alloc: Global, features: &[Feature]) -> Result<Vec<Feature>, AllocError>
    ensures { IfOk result (λ v. v.items ≡ features.now) }
{
    let mut copies = Vec::new(alloc);
    for feature in features {
        copies.push(copy_feature(feature)?)?;
    }
    Ok(copies)
}

/// The same pattern again.
pub fn copy_pattern(alloc: Global, pattern: &Pattern) -> Result<Pattern, AllocError>
    ensures { IfOk result (λ p. p ≡ pattern.now) }
{
    match pattern {
        Pattern::Int(value) => Ok(Pattern::Int(value.copy())),
        Pattern::Atom(text) => Ok(Pattern::Atom(text.copy()?)),
        Pattern::Rec(label, features) => Ok(Pattern::Rec(
            label.copy()?,
            Features::from_vec(copy_features(alloc, features.as_slice())?),
        )),
    }
}
