//! What stands for values.

ghost use Rattle.std.specs.Prelude.{◌≡◌, ◌+◌, ◌<◌, ◌≤◌, ◌^◌, pos, [], ◌∷◌, length, slice_index, IfOk, OnOk};
ghost use Rattle.kernel_syntax.specs.declared.stmt.Stmt.TheVariants as stmt;
ghost use Rattle.kernel_syntax.specs.Sugar.{Value as Tree, Apply, Record, ValueClauses, no_values, new_of, new_in, part_and, pair_of};
ghost use Rattle.tree_node.specs.declared.node.Feature.TheVariants as feature;
ghost use Rattle.kernel_syntax.specs.SugarView.{value_of, values_in, fields_in, parts_in, behind_all, head_in, value_clause_and, value_clauses_in, statements_in};
ghost use Rattle.oz_grammar.specs.Table.{bar_label, code_at};
ghost use Rattle.sugar_rows.specs.Put.{place, declare, slot_places, operation_row};
ghost use Rattle.sugar_rows.specs.Writing.{add, behind, held_place, new_rows, hold_rows, head_rows, write_one, write, write_all, write_fields, write_clauses, write_statements, state_of, written};

use super::Writer;
use crate::counts::{new_in, new_in_pair, new_of};
use crate::leaves::{operands, operation_row, slot_places, two_bodies};
use kernel_syntax::sugar::{Field, Link, Operation, Pair, Statement, Value, ValueClause};
use kernel_syntax::{Bodies, Slots, Stmt};
use std::alloc::AllocError;
use tree_node::{CodeId, Feature, Integer, Text};

/// The fields of the record H|T.
fn pair_slots(head: u32, tail: u32) -> Slots
    ensures { result ≡ (feature.Int (pos 1), head) ∷ (feature.Int (pos 2), tail) ∷ [] }
{
    let first = (Feature::Int(Integer::new(1)), head);
    Slots::two(first, (Feature::Int(Integer::new(2)), tail))
}

impl Writer {
    /// The position of a part, behind the rows before those of what goes on with it.
    #[cycle(writer)]
    pub(super) fn hold(&mut self, part: &Value) -> Result<u32, AllocError>
        ensures place { IfOk result (λ y. y ≡ held_place (value_of part.now) self.old.places self.old.around) }
        ensures rows { OnOk result (self.new ≡ state_of (hold_rows (value_of part.now) (write (value_of part.now) self.old.places (self.old.around + 1) self.old.around) self.old.around self.old.rows) self.old.places (self.old.around + new_of (value_of part.now))) }
        ensures grows { OnOk result (length self.old.rows ≤ length self.new.rows) }
    {
        match part {
            Value::Variable(_, identifier) => Ok(self.place(*identifier)),
            _ => self.hold_new(part),
        }
    }

    /// A new position, behind the rows before those of what goes on with it.
    #[cycle(writer)]
    fn hold_new(&mut self, part: &Value) -> Result<u32, AllocError>
        ensures place { IfOk result (λ y. y ≡ self.old.around) }
        ensures rows { OnOk result (self.new ≡ state_of (new_rows (write (value_of part.now) self.old.places (self.old.around + 1) self.old.around) self.old.around self.old.rows) self.old.places (self.old.around + 1)) }
        ensures grows { OnOk result (length self.old.rows ≤ length self.new.rows) }
    {
        let position = self.around;
        let owner = self.rows.len() + 1;
        self.open_local()?;
        self.put(part, position)?;
        self.room()?;
        let next = CodeId(self.rows.len() as u32);
        let numbers = two_bodies(self.alloc, CodeId(owner as u32 + 1), next)?;
        self.set_numbers(owner, numbers);
        Ok(position)
    }

    /// The positions of parts, behind the rows before those of what goes on with them.
    #[cycle(writer)]
    pub(super) fn hold_all(&mut self, parts: &[Value]) -> Result<Vec<u32>, AllocError>
        ensures places { IfOk result (λ ys. ys.items ≡ (write_all (values_in parts.now) self.old.places self.old.around [] self.old.rows).0) }
        ensures rows { OnOk result (self.new ≡ state_of (write_all (values_in parts.now) self.old.places self.old.around [] self.old.rows).1 self.old.places (self.old.around + new_in (values_in parts.now))) }
        ensures grows { OnOk result (length self.old.rows ≤ length self.new.rows) }
    {
        let mut positions = Vec::with_capacity(self.alloc, parts.len().saturating_add(1))?;
        for part in parts {
            positions.push(self.hold(part)?)?;
        }
        Ok(positions)
    }

    /// The positions of an operator's parts, which are two: they need no list.
    #[cycle(writer)]
    fn hold_two(&mut self, parts: &[Value]) -> Result<(u32, u32), AllocError>
        ensures first { IfOk result (λ y. y.0 ≡ slice_index (write_all (values_in parts.now) self.old.places self.old.around [] self.old.rows).0 0) }
        ensures second { IfOk result (λ y. y.1 ≡ slice_index (write_all (values_in parts.now) self.old.places self.old.around [] self.old.rows).0 1) }
        ensures rows { OnOk result (self.new ≡ state_of (write_all (values_in parts.now) self.old.places self.old.around [] self.old.rows).1 self.old.places (self.old.around + new_in (values_in parts.now))) }
        ensures grows { OnOk result (length self.old.rows ≤ length self.new.rows) }
    {
        match parts {
            [first, second] => {
                let before = self.hold(first)?;
                Ok((before, self.hold(second)?))
            }
            _ => {
                let positions = self.hold_all(parts)?;
                Ok(operands(positions.as_slice()))
            }
        }
    }

    /// What stands for a value that is told to a position.
    #[cycle(writer)]
    pub(super) fn put(&mut self, value: &Value, told: u32) -> Result<(), AllocError>
        ensures rows { OnOk result (self.new ≡ written (write (value_of value.now) self.old.places self.old.around told self.old.rows) self.old) }
        ensures grows { OnOk result (length self.old.rows ≤ length self.new.rows) }
    {
        self.room()?;
        match value {
            Value::Variable(_, identifier) => self.tell_variable(*identifier, told),
            Value::Integer(_, number) => self.tell_integer(number, told),
            Value::Atom(_, text) => self.tell_atom(text, told),
            Value::Record(_, label, slots, values) => {
                self.put_record(label, slots.as_slice(), values.as_slice(), told)
            }
            Value::Pair(_, last, heads) => {
                let outer = self.around;
                let rest = self.put_heads(heads.as_slice(), told)?;
                self.put_pair(last, rest)?;
                self.around = outer;
                Ok(())
            }
            Value::Apply(_, by, parts) => self.put_operation(by, parts.as_slice(), told),
            Value::Proc(_, count, body) => self.put_procedure(*count, body.as_slice(), told),
            Value::Fun(_, count, body) => self.put_function(*count, body, told),
            Value::If(_, subject, yes, no) => {
                let outer = self.around;
                let tested = self.hold(subject)?;
                self.put_chosen(tested, yes, told)?;
                self.put(no, told)?;
                self.around = outer;
                Ok(())
            }
            Value::Brackets(_, inner) => self.put(inner, told),
            Value::Case(_, subject, clauses, no) => {
                let outer = self.around;
                let tested = self.hold(subject)?;
                self.put_clauses(clauses.as_slice(), tested, told)?;
                self.put(no, told)?;
                self.around = outer;
                Ok(())
            }
        }
    }

    /// An `if` with the value of its first branch, where the second is still to come.
    #[cycle(writer)]
    fn put_chosen(&mut self, tested: u32, yes: &Value, told: u32) -> Result<(), AllocError>
        ensures rows { OnOk result (self.new ≡ written (write_one (stmt.If tested (behind self.old.rows) (code_at 0)) (write (value_of yes.now) self.old.places self.old.around told) self.old.rows) self.old) }
        ensures grows { OnOk result (length self.old.rows ≤ length self.new.rows) }
    {
        let owner = self.rows.len();
        self.open_if(tested)?;
        self.put(yes, told)?;
        self.set_second(owner)
    }

    /// What stands for an identifier of the text that is told to a position.
    fn tell_variable(&mut self, identifier: u32, told: u32) -> Result<(), AllocError>
        ensures rows { OnOk result (self.new ≡ written (add (stmt.TellVar told (place self.old.places identifier)) self.old.rows) self.old) }
        ensures grows { OnOk result (length self.old.rows ≤ length self.new.rows) }
    {
        let right = self.place(identifier);
        self.add(Stmt::TellVar { left: told, right })
    }

    /// What stands for an integer.
    fn tell_integer(&mut self, number: &Integer, told: u32) -> Result<(), AllocError>
        ensures rows { OnOk result (self.new ≡ written (add (stmt.TellInt told number.now) self.old.rows) self.old) }
        ensures grows { OnOk result (length self.old.rows ≤ length self.new.rows) }
    {
        let value = number.copy();
        self.add(Stmt::TellInt { left: told, value })
    }

    /// What stands for an atom.
    fn tell_atom(&mut self, text: &Text, told: u32) -> Result<(), AllocError>
        ensures rows { OnOk result (self.new ≡ written (add (stmt.TellAtom told text.now) self.old.rows) self.old) }
        ensures grows { OnOk result (length self.old.rows ≤ length self.new.rows) }
    {
        let text = text.copy()?;
        self.add(Stmt::TellAtom { left: told, text })
    }

    /// What stands for a record.
    #[cycle(writer)]
    fn put_record(
        &mut self,
        label: &Text,
        slots: &[(Feature, Field)],
        values: &[Value],
        told: u32,
    ) -> Result<(), AllocError>
        ensures rows { OnOk result (self.new ≡ written (write (Record 0 label.now slots.now (values_in values.now)) self.old.places self.old.around told self.old.rows) self.old) }
        ensures grows { OnOk result (length self.old.rows ≤ length self.new.rows) }
    {
        let first = self.around;
        let placed = slot_places(self.alloc, slots, self.places.as_slice(), first)?;
        let tell = Stmt::TellRec {
            left: told,
            label: label.copy()?,
            fields: placed,
        };
        let count = new_in(values);
        if count == 0 {
            return self.add(tell);
        }
        let owner = self.open_record(count)?;
        let mut numbers = Bodies::new(self.alloc);
        numbers.push(CodeId(owner as u32 + 1))?;
        self.add(tell)?;
        self.put_fields(values, first, &mut numbers)?;
        self.set_numbers(owner, numbers);
        self.around = first;
        Ok(())
    }

    /// What stands for the heads before a pair, the last of them first, up to what stands for the pair: its position.
    #[cycle(writer)]
    #[tactic(auto, using(crate::proofs::Lists::heads_write))]
    fn put_heads(&mut self, heads: &[Link], told: u32) -> Result<u32, AllocError>
        ensures rows { IfOk result (λ t. (hu : Tree × Tree) → write (pair_of 0 (behind_all hu heads.now)) self.old.places self.old.around told self.old.rows ≡ write (pair_of 0 hu) self.old.places self.new.around t self.new.rows) }
        ensures same { OnOk result (self.new.places ≡ self.old.places) }
        ensures grows { OnOk result (length self.old.rows ≤ length self.new.rows) }
    {
        let mut rest = told;
        let mut others = heads.len();
        while others > 0 {
            others -= 1;
            rest = self.put_link(&heads[others], rest)?;
        }
        Ok(rest)
    }

    /// What stands for a head before a list, up to what stands for that: its position.
    #[cycle(writer)]
    fn put_link(&mut self, link: &Link, told: u32) -> Result<u32, AllocError>
        ensures told { IfOk result (λ t. t ≡ self.old.around + new_of (head_in link.now)) }
        ensures rows { OnOk result (self.new ≡ state_of (head_rows (head_in link.now) self.old.places self.old.around told self.old.rows) self.old.places (self.old.around + (new_of (head_in link.now) + 1))) }
        ensures grows { OnOk result (length self.old.rows ≤ length self.new.rows) }
    {
        match link {
            Link::Before(_, head) => self.put_head(head, told),
        }
    }

    /// The same for the head.
    #[cycle(writer)]
    fn put_head(&mut self, head: &Value, told: u32) -> Result<u32, AllocError>
        ensures told { IfOk result (λ t. t ≡ self.old.around + new_of (value_of head.now)) }
        ensures rows { OnOk result (self.new ≡ state_of (head_rows (value_of head.now) self.old.places self.old.around told self.old.rows) self.old.places (self.old.around + (new_of (value_of head.now) + 1))) }
        ensures grows { OnOk result (length self.old.rows ≤ length self.new.rows) }
    {
        self.room()?;
        let first = self.around;
        let second = first + new_of(head) as u32;
        let tell = Stmt::TellRec {
            left: told,
            label: self.bar.copy()?,
            fields: pair_slots(self.part_place(head, first), second),
        };
        let owner = self.open_record(new_of(head) + 1)?;
        let mut numbers = Bodies::new(self.alloc);
        numbers.push(CodeId(owner as u32 + 1))?;
        self.add(tell)?;
        self.put_field(head, first, &mut numbers)?;
        self.room()?;
        numbers.push(CodeId(self.rows.len() as u32))?;
        self.set_numbers(owner, numbers);
        Ok(second)
    }

    /// What stands for a pair.
    #[cycle(writer)]
    fn put_pair(&mut self, pair: &Pair, told: u32) -> Result<(), AllocError>
        ensures rows { OnOk result (self.new ≡ written (write (Record 0 bar_label (fields_in pair.now) (parts_in pair.now)) self.old.places self.old.around told self.old.rows) self.old) }
        ensures grows { OnOk result (length self.old.rows ≤ length self.new.rows) }
    {
        self.room()?;
        let first = self.around;
        let tell = self.pair_row(pair, told)?;
        let count = new_in_pair(pair);
        if count == 0 {
            return self.add(tell);
        }
        let owner = self.open_record(count)?;
        let mut numbers = Bodies::new(self.alloc);
        numbers.push(CodeId(owner as u32 + 1))?;
        self.add(tell)?;
        self.put_two(pair, first, &mut numbers)?;
        self.set_numbers(owner, numbers);
        self.around = first;
        Ok(())
    }

    /// What stands for a head and a tail that are no variables, behind their tell, with their numbers behind others.
    #[cycle(writer)]
    #[tactic(auto, using(crate::proofs::Pairs::write_both))]
    fn put_two(&mut self, pair: &Pair, first: u32, numbers: &mut Bodies) -> Result<(), AllocError>
        requires { first < 2 ^ 31 }
        ensures numbers { OnOk result (numbers.new ≡ (write_fields (parts_in pair.now) self.old.places self.old.around first numbers.old self.old.rows).0) }
        ensures rows { OnOk result (self.new ≡ written (write_fields (parts_in pair.now) self.old.places self.old.around first numbers.old self.old.rows).1 self.old) }
        ensures grows { OnOk result (length self.old.rows ≤ length self.new.rows) }
    {
        match pair {
            Pair::Of(head, tail) => {
                let second = first + new_of(head) as u32;
                self.put_field(head, first, numbers)?;
                self.put_field(tail, second, numbers)
            }
        }
    }

    /// What stands for a field that is no variable, with its number behind others.
    #[cycle(writer)]
    fn put_field(
        &mut self,
        value: &Value,
        told: u32,
        numbers: &mut Bodies,
    ) -> Result<(), AllocError>
        ensures numbers { OnOk result (numbers.new ≡ (write_fields (part_and (value_of value.now) no_values) self.old.places self.old.around told numbers.old self.old.rows).0) }
        ensures rows { OnOk result (self.new ≡ written (write_fields (part_and (value_of value.now) no_values) self.old.places self.old.around told numbers.old self.old.rows).1 self.old) }
        ensures grows { OnOk result (length self.old.rows ≤ length self.new.rows) }
    {
        match value {
            Value::Variable(..) => Ok(()),
            _ => {
                self.room()?;
                numbers.push(CodeId(self.rows.len() as u32))?;
                self.put(value, told)
            }
        }
    }

    /// The tell of a pair, where new identifiers have positions from the next one on.
    #[tactic(auto, using(crate::proofs::Pairs::head_place, crate::proofs::Pairs::tail_place))]
    fn pair_row(&self, pair: &Pair, told: u32) -> Result<Stmt, AllocError>
        requires { self.now.around < 2 ^ 31 }
        ensures { IfOk result (λ r. r ≡ stmt.TellRec told bar_label (slot_places self.now.places self.now.around (fields_in pair.now))) }
    {
        match pair {
            Pair::Of(head, tail) => {
                let head_place = self.part_place(head, self.around);
                let tail_place = self.part_place(tail, self.around + new_of(head) as u32);
                Ok(Stmt::TellRec {
                    left: told,
                    label: self.bar.copy()?,
                    fields: pair_slots(head_place, tail_place),
                })
            }
        }
    }

    /// The position of a field, a new one unless it is a variable.
    fn part_place(&self, value: &Value, new: u32) -> u32
        ensures { result ≡ held_place (value_of value.now) self.now.places new }
    {
        match value {
            Value::Variable(_, identifier) => self.place(*identifier),
            _ => new,
        }
    }

    /// What stands for the fields of a record that are no variables, behind its tell, with their numbers behind others.
    #[cycle(writer)]
    fn put_fields(
        &mut self,
        values: &[Value],
        first: u32,
        numbers: &mut Bodies,
    ) -> Result<(), AllocError>
        ensures numbers { OnOk result (numbers.new ≡ (write_fields (values_in values.now) self.old.places self.old.around first numbers.old self.old.rows).0) }
        ensures rows { OnOk result (self.new ≡ written (write_fields (values_in values.now) self.old.places self.old.around first numbers.old self.old.rows).1 self.old) }
        ensures grows { OnOk result (length self.old.rows ≤ length self.new.rows) }
    {
        let mut told = first;
        for value in values {
            match value {
                Value::Variable(..) => {}
                _ => {
                    self.room()?;
                    if told >= 1 << 31 {
                        return Err(AllocError);
                    }
                    numbers.push(CodeId(self.rows.len() as u32))?;
                    self.put(value, told)?;
                    told += 1;
                }
            }
        }
        Ok(())
    }

    /// What stands for a value that is made of parts.
    #[cycle(writer)]
    fn put_operation(
        &mut self,
        operation: &Operation,
        parts: &[Value],
        told: u32,
    ) -> Result<(), AllocError>
        ensures rows { OnOk result (self.new ≡ written (write (Apply 0 operation.now (values_in parts.now)) self.old.places self.old.around told self.old.rows) self.old) }
        ensures grows { OnOk result (length self.old.rows ≤ length self.new.rows) }
    {
        let outer = self.around;
        match operation {
            Operation::Calc(op) => {
                let (a, b) = self.hold_two(parts)?;
                let (left, op) = (told, *op);
                self.add(Stmt::Calc { left, op, a, b })?;
            }
            Operation::Test(op) => {
                let (a, b) = self.hold_two(parts)?;
                let (left, op) = (told, *op);
                self.add(Stmt::Test { left, op, a, b })?;
            }
            _ => {
                let positions = self.hold_all(parts)?;
                let row = operation_row(operation, self.places.as_slice(), positions, told)?;
                self.add(row)?;
            }
        }
        self.around = outer;
        Ok(())
    }

    /// What stands for a procedure.
    #[cycle(writer)]
    fn put_procedure(&mut self, count: u8, body: &[Statement], told: u32) -> Result<(), AllocError>
        ensures rows { OnOk result (self.new ≡ written (write_statements (statements_in body.now) (declare self.old.places self.old.around count) (self.old.around + count) (add (stmt.TellProc told self.old.around count (behind self.old.rows)) self.old.rows)) self.old) }
        ensures grows { OnOk result (length self.old.rows ≤ length self.new.rows) }
    {
        self.room()?;
        let outer = self.around;
        let declared = self.places.len();
        let inside = self.behind();
        self.add(Stmt::TellProc {
            left: told,
            first: outer,
            count,
            body: inside,
        })?;
        self.declare(count as u32)?;
        self.statements(body)?;
        self.leave(declared, outer);
        Ok(())
    }

    /// What stands for a function.
    #[cycle(writer)]
    fn put_function(&mut self, count: u8, body: &Value, told: u32) -> Result<(), AllocError>
        ensures rows { OnOk result (self.new ≡ written (write (value_of body.now) (declare self.old.places self.old.around count) (self.old.around + count + 1) (self.old.around + count) (add (stmt.TellProc told self.old.around (count + 1) (behind self.old.rows)) self.old.rows)) self.old) }
        ensures grows { OnOk result (length self.old.rows ≤ length self.new.rows) }
    {
        self.room()?;
        let outer = self.around;
        let declared = self.places.len();
        let inside = self.behind();
        let Some(all) = count.checked_add(1) else {
            return Err(AllocError);
        };
        self.add(Stmt::TellProc {
            left: told,
            first: outer,
            count: all,
            body: inside,
        })?;
        self.declare(count as u32)?;
        self.room()?;
        let answer = self.around;
        self.around += 1;
        self.put(body, answer)?;
        self.leave(declared, outer);
        Ok(())
    }

    /// What stands for clauses of values, up to the value behind `else`.
    #[cycle(writer)]
    fn put_clauses(
        &mut self,
        clauses: &[ValueClause],
        tested: u32,
        told: u32,
    ) -> Result<(), AllocError>
        ensures rows { OnOk result (self.new ≡ written (write_clauses (value_clauses_in clauses.now) self.old.places self.old.around tested told self.old.rows) self.old) }
        ensures grows { OnOk result (length self.old.rows ≤ length self.new.rows) }
    {
        for clause in clauses {
            self.put_clause(clause, tested, told)?;
        }
        Ok(())
    }

    /// What stands for a clause, before others.
    #[cycle(writer)]
    fn put_clause(&mut self, clause: &ValueClause, tested: u32, told: u32) -> Result<(), AllocError>
        ensures rows { OnOk result ((cs : ValueClauses) → write_clauses (value_clause_and clause.now cs) self.old.places self.old.around tested told self.old.rows ≡ write_clauses cs self.old.places self.old.around tested told self.new.rows) }
        ensures same { OnOk result (self.new ≡ written self.new.rows self.old) }
        ensures grows { OnOk result (length self.old.rows ≤ length self.new.rows) }
    {
        match clause {
            ValueClause::Then(pattern, value) => {
                let outer = self.around;
                let declared = self.places.len();
                let owner = self.rows.len();
                self.open_case(pattern, tested)?;
                self.put(value, told)?;
                self.leave(declared, outer);
                self.set_second(owner)
            }
        }
    }
}
