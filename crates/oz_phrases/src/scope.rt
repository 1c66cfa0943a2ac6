//! Identifiers and the declarations around them.

ghost use Rattle.std.specs.Prelude.{◌≡◌, ◌<◌, ◌≤◌, ◌^◌, ◌+◌, ◌-◌, ◌++◌, ◌∷◌, ℕ, List, [], take, length, slice_get, if◌then◌else◌, Some, IfSome, IfOk, OnOk, OnErr};
ghost use Rattle.std.specs.Map.{values_of};
ghost use Rattle.std.specs.Str.{bytes_eq};
ghost use Rattle.kernel_syntax.specs.BuiltIns.{arity_of};
ghost use Rattle.oz_grammar.specs.Scoping.{position_of, declaration_of, built_in_of, built_in_at};
ghost use Rattle.indexmap.specs.IndexMap.{set_value_at};
ghost use Rattle.oz_phrases.specs.ScopeIndex.{position_named, IsKeptAt, KeepsPlaces};

use indexmap::IndexMap;
use kernel_syntax::BuiltIn;
use std::alloc::{AllocError, Global};
use std::marker::Model;
use tree_node::Text;

/// The names declared around a place, from the outside inwards, hidden ones too. Contracts see the list of the names.
/// A name is found by its spelling, however many there are.
#[derive(Drop)]
pub struct Scope {
    alloc: Global,
    /// Each name, with the position of the declaration that it hides, and the place where its own position is kept.
    declared: Vec<(Text, Option<usize>, usize)>,
    /// The position of each name, none of one that is declared no more.
    positions: IndexMap<Vec<u8>, Option<usize>>,
}

impl Model for Scope {
    ghost use Rattle.std.specs.Prelude.{List, ℕ};

    ghost Value = { List (List ℕ) };

    ghost use Rattle.oz_phrases.specs.ScopeIndex.{declared_names, IsIndexed};

    ghost view = { λ s. declared_names s.declared.items };

    ghost invariant = { λ s. IsIndexed s.declared.items s.positions.entries };
}

fn position_named(positions: &IndexMap<Vec<u8>, Option<usize>>, name: &[u8]) -> Option<usize>
    ensures { result ≡ position_named positions.now.entries name.now }
{
    match positions.get(name) {
        Some(position) => *position,
        None => None,
    }
}

/// Writes the position at a place, and tells the one that stood there.
fn exchange(
    positions: &mut IndexMap<Vec<u8>, Option<usize>>,
    place: usize,
    position: Option<usize>,
) -> Option<usize>
    requires { place < length positions.old.entries }
    ensures before { slice_get (values_of positions.old.entries) place ≡ Some result }
    ensures entries { positions.new.entries ≡ set_value_at positions.old.entries place position }
{
    match positions.get_index_mut(place) {
        Some(held) => {
            let before = *held;
            *held = position;
            before
        }
        None => None,
    }
}

/// Keeps a name with a position, and tells the place.
fn insert(
    alloc: Global,
    positions: &mut IndexMap<Vec<u8>, Option<usize>>,
    name: &[u8],
    position: usize,
) -> Result<usize, AllocError>
    ensures ok { OnOk result ((x : List ℕ) → position_named positions.new.entries x ≡ (if bytes_eq x name.now then Some position else position_named positions.old.entries x)) }
    ensures place { IfOk result (λ place. IsKeptAt positions.new.entries name.now place) }
    ensures places { OnOk result (KeepsPlaces positions.old.entries positions.new.entries) }
    ensures err { OnErr result (positions.new.entries ≡ positions.old.entries) }
{
    let key = Vec::from_slice(alloc, name)?;
    let (place, _) = positions.insert_full(key, Some(position))?;
    Ok(place)
}

/// Gives a name a position, and tells the one that it had before and the place where it is kept. A name that was declared
/// before is kept already, and takes no memory.
fn put(
    alloc: Global,
    positions: &mut IndexMap<Vec<u8>, Option<usize>>,
    name: &[u8],
    position: usize,
) -> Result<(Option<usize>, usize), AllocError>
    ensures ok { OnOk result ((x : List ℕ) → position_named positions.new.entries x ≡ (if bytes_eq x name.now then Some position else position_named positions.old.entries x)) }
    ensures hidden { IfOk result (λ r. r.0 ≡ position_named positions.old.entries name.now) }
    ensures place { IfOk result (λ r. IsKeptAt positions.new.entries name.now r.1) }
    ensures places { OnOk result (KeepsPlaces positions.old.entries positions.new.entries) }
    ensures err { OnErr result (positions.new.entries ≡ positions.old.entries) }
{
    match positions.get_index_of(name) {
        Some(place) => {
            let hidden = exchange(positions, place, Some(position));
            Ok((hidden, place))
        }
        None => {
            let place = insert(alloc, positions, name, position)?;
            Ok((None, place))
        }
    }
}

impl Scope {
    /// No declarations.
    pub fn new(alloc: Global) -> Scope
        ensures { result ≡ [] }
    {
        Scope {
            alloc,
            declared: Vec::new(alloc),
            positions: IndexMap::new(alloc),
        }
    }

    /// How many declarations there are.
    pub fn len(&self) -> usize
        ensures { result ≡ length self.now }
    {
        self.declared.len()
    }

    /// The number of declarations around the innermost one of a name.
    pub fn position(&self, name: &[u8]) -> Option<usize>
        ensures value { result ≡ position_of self.now name.now }
        ensures within { IfSome result (λ p. p < length self.now) }
    {
        position_named(&self.positions, name)
    }

    /// One declaration more, within those before.
    pub fn declare(&mut self, name: &Text) -> Result<(), AllocError>
        ensures ok { OnOk result (self.new ≡ self.old ++ name.now ∷ []) }
        ensures err { OnErr result (self.new ≡ self.old) }
    {
        let kept = name.copy()?;
        self.declared.reserve(1)?;
        let position = self.declared.len();
        let (hidden, place) = put(self.alloc, &mut self.positions, name.as_slice(), position)?;
        self.declared.push_reserved((kept, hidden, place));
        Ok(())
    }

    /// More declarations, each within those before.
    pub fn declare_all(&mut self, names: &[Text]) -> Result<(), AllocError>
        ensures ok { OnOk result (self.new ≡ self.old ++ names.now) }
        ensures few { length self.new ≤ length self.old + length names.now }
    {
        for name in names {
            self.declare(name)?;
        }
        Ok(())
    }

    /// Takes the innermost declaration away.
    fn leave(&mut self)
        ensures { self.new ≡ take (length self.old - 1) self.old }
    {
        if let Some((_, hidden, place)) = self.declared.pop() {
            exchange(&mut self.positions, place, hidden);
        }
    }

    /// Only the first of the declarations.
    pub fn truncate(&mut self, outer: usize)
        ensures { self.new ≡ take outer self.old }
    {
        'declarations: while self.len() > outer {
            self.leave();
        }
    }
}

fn built_in_of(name: &[u8]) -> Option<BuiltIn>
    ensures { result ≡ built_in_of name.now }
{
    if name == b"Browse".as_slice() {
        Some(BuiltIn::Browse)
    } else if name == b"Wait".as_slice() {
        Some(BuiltIn::Wait)
    } else if name == b"NewCell".as_slice() {
        Some(BuiltIn::NewCell)
    } else if name == b"Exchange".as_slice() {
        Some(BuiltIn::Exchange)
    } else if name == b"NewPort".as_slice() {
        Some(BuiltIn::NewPort)
    } else if name == b"Send".as_slice() {
        Some(BuiltIn::Send)
    } else if name == b"NewCellAt".as_slice() {
        Some(BuiltIn::NewCellAt)
    } else {
        None
    }
}

/// What a call of this name calls, where it is built in: where nothing declares the name.
#[tactic(auto, unfolding(oz_grammar::specs::Scoping::built_in_at))]
pub fn built_in_at(scope: &Scope, name: &[u8]) -> Option<BuiltIn>
    ensures { result ≡ built_in_at scope.now name.now }
{
    if scope.position(name).is_some() {
        None
    } else {
        built_in_of(name)
    }
}

/// How many arguments what is built in has.
pub fn arity_of(built_in: BuiltIn) -> u32
    ensures value { result ≡ arity_of built_in }
    ensures small { result ≤ 3 }
{
    match built_in {
        BuiltIn::Browse | BuiltIn::Wait => 1,
        BuiltIn::NewCell | BuiltIn::NewPort | BuiltIn::Send => 2,
        BuiltIn::Exchange | BuiltIn::NewCellAt => 3,
    }
}

/// The position of an identifier, 0 of one that nothing declares.
pub fn position_or_zero(scope: &Scope, name: &[u8]) -> u32
    requires { length scope.now < 2 ^ 32 }
    ensures { result ≡ declaration_of scope.now name.now }
{
    match scope.position(name) {
        Some(position) => position as u32,
        None => 0,
    }
}
