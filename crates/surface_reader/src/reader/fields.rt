//! The fields of records.

ghost use Rattle.std.specs.Prelude.{◌≡◌, ◌≤◌, ◌+◌, ◌<◌, ◌^◌, [], length, OnOk};
ghost use Rattle.tree_node.specs.declared.limits.TheConstants.{MOST_ITEMS};
ghost use Rattle.kernel_syntax.specs.Sugar.{no_values};
ghost use Rattle.kernel_syntax.specs.SugarView.{value_of};
ghost use Rattle.oz_grammar.specs.Table.{features_in};
ghost use Rattle.oz_phrases.specs.ReadAnswers.{IsReadAs};
ghost use Rattle.surface_grammar.specs.Points.{given_fault};
ghost use Rattle.surface_grammar.specs.Reading.{atom_at, fields_at, field_at, named_at, placed_at};
ghost use Rattle.surface_reader.specs.State.{IsBehind, IsNotBefore};
ghost use Rattle.surface_reader.specs.Levels.{read_value};
ghost use Rattle.surface_parts.specs.Slots.{so_far};

use super::Reader;
use kernel_syntax::sugar::{Field, Value};
use oz_grammar::{FaultKind, Symbol, What};
use oz_phrases::{Stop, fault, is_close_round};
use surface_parts::{Fields, add_field, is_given, no_fields, place_feature, record_value};
use tree_node::{Feature, Integer, MOST_ITEMS, Text};

/// What is wrong with one more field of this feature, where there is room for so many.
fn given_fault(room: u32, slots: &[(Feature, Field)], feature: &Feature) -> Option<FaultKind>
    ensures { result ≡ given_fault room (features_in slots.now) feature.now }
{
    if room == 0 {
        Some(FaultKind::Wide)
    } else if is_given(slots, feature) {
        Some(FaultKind::Twice)
    } else {
        None
    }
}

impl<'t> Reader<'t> {
    /// Behind an atom: the fields of a record, if a bracket opens them.
    #[cycle(reader)]
    pub(super) fn atom(&mut self, depth: u32, left: usize, label: &Text) -> Result<Value, Stop>
        ensures read { IsReadAs (λ v. (value_of v, self.new.rest)) result (atom_at (read_value depth) self.old.scope left label.now self.old.rest) }
        ensures moves { OnOk result (IsNotBefore self.old self.new) }
    {
        match self.rest {
            [Symbol::OpenRound, rest @ ..] => {
                self.rest = rest;
                let fields = self.fields(depth)?;
                Ok(record_value(left, label.copy()?, fields))
            }
            _ => Ok(Value::Atom(left, label.copy()?)),
        }
    }

    /// The fields up to the closing bracket: at most 64.
    #[cycle(reader)]
    #[tactic(auto, using(crate::proofs::Unfold::fields_none, crate::proofs::Unfold::fields_some))]
    fn fields(&mut self, depth: u32) -> Result<Fields, Stop>
        ensures read { IsReadAs (λ f. (so_far f.slots.items f.values.items f.next, self.new.rest)) result (fields_at (read_value depth) self.old.scope MOST_ITEMS ([], no_values, 1) self.old.rest) }
        ensures moves { OnOk result (IsBehind self.old self.new) }
    {
        let mut fields = no_fields(self.alloc);
        let mut room: u32 = MOST_ITEMS;
        loop {
            if is_close_round(self.rest) {
                self.advance();
                return Ok(fields);
            }
            self.field(depth, room, &mut fields)?;
            if room == 0 {
                return Ok(fields);
            }
            room -= 1;
        }
    }

    /// A field behind others, with room for so many.
    #[cycle(reader)]
    fn field(&mut self, depth: u32, room: u32, fields: &mut Fields) -> Result<(), Stop>
        requires { fields.old.next < 2 ^ 31 }
        ensures read { IsReadAs (λ _. (so_far fields.new.slots.items fields.new.values.items fields.new.next, self.new.rest)) result (field_at (read_value depth) self.old.scope room (so_far fields.old.slots.items fields.old.values.items fields.old.next) self.old.rest) }
        ensures moves { OnOk result (IsBehind self.old self.new) }
        ensures next { fields.new.next ≤ fields.old.next + 1 }
    {
        match self.rest {
            [Symbol::Atom(text), Symbol::Colon, rest @ ..] => {
                let feature = Feature::Atom(text.copy()?);
                self.named(depth, room, fields, feature, rest)
            }
            [Symbol::Integer(Some(number)), Symbol::Colon, rest @ ..] => {
                let feature = Feature::Int(Integer::new(number.get()));
                self.named(depth, room, fields, feature, rest)
            }
            [Symbol::Integer(None), Symbol::Colon, ..] => Err(fault(FaultKind::Number, self.rest)),
            _ => self.placed(depth, room, fields),
        }
    }

    /// A field with its feature, behind whose colon these symbols stand.
    #[cycle(reader)]
    fn named(
        &mut self,
        depth: u32,
        room: u32,
        fields: &mut Fields,
        feature: Feature,
        rest: &'t [Symbol],
    ) -> Result<(), Stop>
        requires { length rest.now < length self.old.rest }
        ensures read { IsReadAs (λ _. (so_far fields.new.slots.items fields.new.values.items fields.new.next, self.new.rest)) result (named_at (read_value depth) self.old.scope room (so_far fields.old.slots.items fields.old.values.items fields.old.next) feature self.old.rest rest.now) }
        ensures moves { OnOk result (IsBehind self.old self.new) }
        ensures next { fields.new.next ≡ fields.old.next }
    {
        if let Some(kind) = given_fault(room, fields.slots.as_slice(), &feature) {
            return Err(fault(kind, self.rest));
        }
        self.rest = rest;
        let value = self.value(depth, None, What::Value)?;
        add_field(fields, feature, value)?;
        Ok(())
    }

    /// A field without a feature.
    #[cycle(reader)]
    fn placed(&mut self, depth: u32, room: u32, fields: &mut Fields) -> Result<(), Stop>
        requires { fields.old.next < 2 ^ 31 }
        ensures read { IsReadAs (λ _. (so_far fields.new.slots.items fields.new.values.items fields.new.next, self.new.rest)) result (placed_at (read_value depth) self.old.scope room (so_far fields.old.slots.items fields.old.values.items fields.old.next) self.old.rest) }
        ensures moves { OnOk result (IsBehind self.old self.new) }
        ensures next { fields.new.next ≤ fields.old.next + 1 }
    {
        let feature = place_feature(fields.next);
        let holder = given_fault(room, fields.slots.as_slice(), &feature);
        let value = self.value(depth, holder, What::FieldOrBracket)?;
        add_field(fields, feature, value)?;
        fields.next += 1;
        Ok(())
    }
}
