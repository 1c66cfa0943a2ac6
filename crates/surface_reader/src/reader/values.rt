//! Values.

ghost use Rattle.std.specs.Prelude.{◌<◌, ◌≤◌, ◌^◌, length, None, IfOk, OnOk};
ghost use Rattle.kernel_syntax.specs.SugarView.{value_of};
ghost use Rattle.oz_phrases.specs.ReadAnswers.{IsReadAs};
ghost use Rattle.surface_grammar.specs.Reading.{below, behind_part_at, second_at, behind_head_at, selections_at, variable_at, integer_at, compound_at, brackets_at};
ghost use Rattle.surface_reader.specs.State.{IsBehind, IsNotBefore};
ghost use Rattle.surface_reader.specs.Levels.{read_value, read_primary, read_part, read_operand, read_tail, readers};

use super::{Reader, inside};
use kernel_syntax::sugar::{Operation, Value};
use oz_grammar::{FaultKind, Sign, Symbol, What};
use oz_phrases::{Read, Scope, Stop, fault, mismatch, selection, used_variable};
use std::alloc::Global;
use surface_grammar::Callable;
use surface_parts::{
    apply_two, behind, brackets, goes_on, is_at_compound, is_case, is_dot, is_if, is_integer,
    is_variable, pair_value, select,
};
use tree_node::Integer;

/// What is selected in a part of a value, as often as a dot follows.
#[tactic(auto, using(crate::proofs::Unfold::selections_none, crate::proofs::Unfold::selections_deep, crate::proofs::Unfold::selections_some))]
fn selections<'t>(
    alloc: Global,
    scope: &Scope,
    left: usize,
    part: (Value, u32),
    symbols: &'t [Symbol],
) -> Read<'t, (Value, u32)>
    requires { length scope.now < 2 ^ 32 }
    ensures read { IsReadAs (λ x. ((value_of x.0.0, x.0.1), x.1.now)) result (selections_at part.1 scope.now left (value_of part.0) symbols.now) }
    ensures shorter { IfOk result (λ x. length x.1.now ≤ length symbols.now) }
    ensures levels { IfOk result (λ x. x.0.1 ≤ part.1) }
{
    let (mut value, mut levels) = part;
    let mut rest = symbols;
    'dots: while is_dot(rest) {
        if levels == 0 {
            return Err(fault(FaultKind::Deep, rest));
        }
        let (by, next) = selection(scope, behind(rest))?;
        value = select(alloc, left, by, value)?;
        rest = next;
        levels -= 1;
    }
    Ok(((value, levels), rest))
}

impl<'t> Reader<'t> {
    /// A value with so many levels, where its holder may have something wrong at its first symbol, and this is expected if none
    /// begins.
    #[cycle(reader)]
    #[tactic(auto, using(crate::proofs::Steps::value_is, crate::proofs::Steps::part_alone))]
    pub(super) fn value(
        &mut self,
        depth: u32,
        holder: Option<FaultKind>,
        what: What,
    ) -> Result<Value, Stop>
        ensures read { IsReadAs (λ v. (value_of v, self.new.rest)) result (read_value depth self.old.scope holder what self.old.rest) }
        ensures moves { OnOk result (IsBehind self.old self.new) }
    {
        let left = self.rest.len();
        if is_if(self.rest) {
            let inner = self.level(depth, holder)?;
            self.advance();
            return self.if_value(inner, left);
        }
        if is_case(self.rest) {
            let inner = self.level(depth, holder)?;
            self.advance();
            return self.case_value(inner, left);
        }
        let (first, levels) = self.part(depth, holder, what)?;
        if !goes_on(self.rest) {
            return Ok(first);
        }
        self.behind_part(depth, left, first, levels)
    }

    /// The whole value that begins with this part.
    #[cycle(reader)]
    fn behind_part(
        &mut self,
        depth: u32,
        left: usize,
        first: Value,
        levels: u32,
    ) -> Result<Value, Stop>
        requires { levels ≤ depth }
        ensures read { IsReadAs (λ v. (value_of v, self.new.rest)) result (behind_part_at (below depth) self.old.scope left (value_of first, levels) self.old.rest) }
        ensures moves { OnOk result (IsNotBefore self.old self.new) }
    {
        match self.rest {
            [Symbol::Operator(op), ..] => {
                self.second(depth, left, Operation::Calc(*op), first, levels)
            }
            [Symbol::Test(op), ..] => self.second(depth, left, Operation::Test(*op), first, levels),
            _ => self.behind_head(depth, left, first, levels),
        }
    }

    /// An operator or a test, and its second part.
    #[cycle(reader)]
    fn second(
        &mut self,
        depth: u32,
        left: usize,
        operation: Operation,
        first: Value,
        levels: u32,
    ) -> Result<Value, Stop>
        requires { levels ≤ depth }
        ensures read { IsReadAs (λ v. (value_of v, self.new.rest)) result (second_at (below depth) self.old.scope left operation (value_of first, levels) self.old.rest) }
        ensures moves { OnOk result (IsNotBefore self.old self.new) }
    {
        self.level(levels, None)?;
        self.advance();
        let other = self.operand(inside(depth))?;
        Ok(apply_two(self.alloc, left, operation, first, other)?)
    }

    /// The second part of an operator or a test.
    #[cycle(reader)]
    #[tactic(auto, using(crate::proofs::Steps::operand_is))]
    fn operand(&mut self, depth: u32) -> Result<Value, Stop>
        ensures read { IsReadAs (λ v. (value_of v, self.new.rest)) result (read_operand depth self.old.scope self.old.rest) }
        ensures moves { OnOk result (IsBehind self.old self.new) }
    {
        let (value, _) = self.part(depth, None, What::Value)?;
        Ok(value)
    }

    /// The whole list that begins with this part.
    #[cycle(reader)]
    fn behind_head(
        &mut self,
        depth: u32,
        left: usize,
        head: Value,
        levels: u32,
    ) -> Result<Value, Stop>
        requires { levels ≤ depth }
        ensures read { IsReadAs (λ v. (value_of v, self.new.rest)) result (behind_head_at (below depth) self.old.scope left (value_of head, levels) self.old.rest) }
        ensures moves { OnOk result (IsNotBefore self.old self.new) }
    {
        match self.rest {
            [Symbol::Bar, rest @ ..] => {
                self.level(levels, None)?;
                self.rest = rest;
                let tail = self.tail(inside(depth))?;
                Ok(pair_value(self.alloc, left, head, tail)?)
            }
            _ => Ok(head),
        }
    }

    /// The tail of a list.
    #[cycle(reader)]
    #[tactic(auto, using(crate::proofs::Steps::tail_is))]
    fn tail(&mut self, depth: u32) -> Result<Value, Stop>
        ensures read { IsReadAs (λ v. (value_of v, self.new.rest)) result (read_tail depth self.old.scope self.old.rest) }
        ensures moves { OnOk result (IsBehind self.old self.new) }
    {
        let left = self.rest.len();
        let (head, levels) = self.part(depth, None, What::Value)?;
        self.behind_head(depth, left, head, levels)
    }

    /// A primary with what is selected in it, and how many levels it has left as a part of another value.
    #[cycle(reader)]
    #[tactic(auto, using(crate::proofs::Steps::part_is, crate::proofs::Unfold::selections_none))]
    fn part(
        &mut self,
        depth: u32,
        holder: Option<FaultKind>,
        what: What,
    ) -> Result<(Value, u32), Stop>
        ensures read { IsReadAs (λ x. ((value_of x.0, x.1), self.new.rest)) result (read_part depth self.old.scope holder what self.old.rest) }
        ensures moves { OnOk result (IsBehind self.old self.new) }
        ensures levels { IfOk result (λ x. x.1 ≤ depth) }
    {
        let left = self.rest.len();
        let (first, levels) = self.primary(depth, holder, what)?;
        if !is_dot(self.rest) {
            return Ok((first, levels));
        }
        let (whole, rest) = selections(self.alloc, &self.scope, left, (first, levels), self.rest)?;
        self.rest = rest;
        Ok(whole)
    }

    /// A primary without what may follow it, and its levels as a part.
    #[cycle(reader)]
    #[tactic(auto, using(crate::proofs::Steps::primary_is))]
    fn primary(
        &mut self,
        depth: u32,
        holder: Option<FaultKind>,
        what: What,
    ) -> Result<(Value, u32), Stop>
        ensures read { IsReadAs (λ x. ((value_of x.0, x.1), self.new.rest)) result (read_primary depth self.old.scope holder what self.old.rest) }
        ensures moves { OnOk result (IsBehind self.old self.new) }
        ensures levels { IfOk result (λ x. x.1 ≤ depth) }
    {
        if is_variable(self.rest) {
            return Ok((self.variable(holder)?, depth));
        }
        if is_integer(self.rest) {
            return self.integer(depth, holder);
        }
        if !is_at_compound(self.rest) {
            return Err(mismatch(what, self.rest));
        }
        let inner = self.level(depth, holder)?;
        Ok((self.compound(inner)?, inner))
    }

    /// A variable.
    fn variable(&mut self, holder: Option<FaultKind>) -> Result<Value, Stop>
        ensures read { IsReadAs (λ v. (value_of v, self.new.rest)) result (variable_at self.old.scope holder self.old.rest) }
        ensures moves { OnOk result (IsBehind self.old self.new) }
    {
        let left = self.rest.len();
        match self.rest {
            [Symbol::Variable(_), ..] => {
                if let Some(kind) = holder {
                    return Err(fault(kind, self.rest));
                }
                let (position, rest) = used_variable(What::Value, &self.scope, self.rest)?;
                self.rest = rest;
                Ok(Value::Variable(left, position))
            }
            _ => Err(mismatch(What::Value, self.rest)),
        }
    }

    /// An integer.
    fn integer(&mut self, depth: u32, holder: Option<FaultKind>) -> Result<(Value, u32), Stop>
        ensures read { IsReadAs (λ x. ((value_of x.0, x.1), self.new.rest)) result (integer_at depth holder self.old.rest) }
        ensures moves { OnOk result (IsBehind self.old self.new) }
        ensures levels { IfOk result (λ x. x.1 ≤ depth) }
    {
        let left = self.rest.len();
        match self.rest {
            [Symbol::Integer(Some(number)), rest @ ..] => {
                let inner = self.level(depth, holder)?;
                self.rest = rest;
                Ok((Value::Integer(left, Integer::new(number.get())), inner))
            }
            [Symbol::Integer(None), ..] => Err(fault(FaultKind::Number, self.rest)),
            _ => Err(mismatch(What::Value, self.rest)),
        }
    }

    /// A primary of several symbols, or a bare atom.
    #[cycle(reader)]
    fn compound(&mut self, depth: u32) -> Result<Value, Stop>
        ensures read { IsReadAs (λ v. (value_of v, self.new.rest)) result (compound_at (readers depth) self.old.scope self.old.rest) }
        ensures moves { OnOk result (IsBehind self.old self.new) }
    {
        let left = self.rest.len();
        match self.rest {
            [Symbol::Atom(label), rest @ ..] => {
                self.rest = rest;
                self.atom(depth, left, label)
            }
            [Symbol::OpenCurly, rest @ ..] => {
                self.rest = rest;
                self.call_value(depth, left)
            }
            [Symbol::Proc, rest @ ..] => {
                self.rest = rest;
                self.callable_value(depth, Callable::OfProc, left)
            }
            [Symbol::Fun, rest @ ..] => {
                self.rest = rest;
                self.callable_value(depth, Callable::OfFun, left)
            }
            [Symbol::OpenRound, rest @ ..] => {
                self.rest = rest;
                self.brackets(depth, left)
            }
            _ => Err(mismatch(What::Value, self.rest)),
        }
    }

    /// A value in round brackets, behind the first.
    #[cycle(reader)]
    fn brackets(&mut self, depth: u32, left: usize) -> Result<Value, Stop>
        ensures read { IsReadAs (λ v. (value_of v, self.new.rest)) result (brackets_at (read_value depth) self.old.scope left self.old.rest) }
        ensures moves { OnOk result (IsBehind self.old self.new) }
    {
        let inner = self.value(depth, None, What::Value)?;
        self.sign(Sign::CloseRound)?;
        Ok(brackets(self.alloc, left, inner)?)
    }
}
