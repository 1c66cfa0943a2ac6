//! Where an expansion is too deep.

ghost use Rattle.std.specs.Prelude.{◌≡◌, ◌≤◌, ◌+◌, ◌-◌, length, true, false, Some, None, nat_lt, if◌then◌else◌, IfOk};
ghost use Rattle.kernel_syntax.specs.Sugar.{Value as Tree, Clauses, left_of, by_kind, new_of, new_in};
ghost use Rattle.kernel_syntax.specs.SugarView.{value_of, values_in, parts_in, behind_all, head_in, list_place, value_clauses_in, statement_of, statements_in, case_and_of, clauses_in};
ghost use Rattle.oz_sugar.specs.Deep.{or_else, too_deep, deep_value, deep_list, deep_head, deep_behind, deep_parts, deep_fields, deep_clauses, deep_statement, deep_statements, deep_cases, deep};

use kernel_syntax::sugar::{Clause, Link, Pair, Statement, Value, ValueClause};
use sugar_rows::{new_in, new_in_pair, new_of};

fn is_variable(value: &Value) -> bool
    ensures { result ≡ by_kind (value_of value.now) true false }
{
    matches!(value, Value::Variable(..))
}

fn left_of(value: &Value) -> usize
    ensures { result ≡ left_of (value_of value.now) }
{
    match value {
        Value::Variable(left, ..) => *left,
        Value::Integer(left, ..) => *left,
        Value::Atom(left, ..) => *left,
        Value::Record(left, ..) => *left,
        Value::Pair(left, ..) => *left,
        Value::Apply(left, ..) => *left,
        Value::Proc(left, ..) => *left,
        Value::Fun(left, ..) => *left,
        Value::If(left, ..) => *left,
        Value::Case(left, ..) => *left,
        Value::Brackets(left, ..) => *left,
    }
}

/// The first of two places.
fn or_else(first: Option<usize>, other: Option<usize>) -> Option<usize>
    ensures { result ≡ or_else first other }
{
    match first {
        Some(left) => Some(left),
        None => other,
    }
}

// Each of the following gives how many symbols are left at the first place.

/// In a value that counts as one with so many symbols left, and whose first statement has this depth.
#[cycle(deep)]
#[tactic(auto, using(kernel_syntax::proofs::SugarItems::record_of, kernel_syntax::proofs::SugarItems::apply_of, kernel_syntax::proofs::SugarItems::proc_of, kernel_syntax::proofs::SugarItems::value_case_of, kernel_syntax::proofs::SugarItems::value_clauses))]
fn deep_value(value: &Value, left: usize, depth: usize) -> Option<usize>
    requires { depth ≤ 201 }
    ensures { result ≡ deep_value (value_of value.now) left depth }
{
    match value {
        Value::Record(_, _, _, values) => deep_record(values.as_slice(), left, depth),
        Value::Pair(_, last, heads) => match deep_heads(heads.as_slice(), left, depth) {
            Err(first) => Some(first),
            Ok((place, inside)) => deep_pair(last, place, inside),
        },
        Value::Apply(_, _, values) => deep_apply(values.as_slice(), left, depth),
        Value::Proc(_, _, body) => deep_body(body.as_slice(), left, depth),
        Value::Fun(_, _, body) => {
            if depth > 200 {
                return Some(left);
            }
            deep_value(body, left_of(body), depth + 1)
        }
        Value::If(_, subject, yes, no) => {
            let own = depth + new_of(subject);
            if own > 200 {
                return Some(left);
            }
            let tested = deep_part(subject, depth);
            let chosen = deep_value(yes, left_of(yes), own + 1);
            let other = deep_value(no, left_of(no), own + 1);
            or_else(tested, or_else(chosen, other))
        }
        Value::Case(_, subject, clauses, no) => {
            let own = depth + new_of(subject);
            if own + clauses.len().saturating_sub(1) > 200 {
                return Some(left);
            }
            let tested = deep_part(subject, depth);
            let chosen = deep_clauses(clauses.as_slice(), own + 1);
            let other = deep_value(no, left_of(no), own + clauses.len());
            or_else(tested, or_else(chosen, other))
        }
        Value::Brackets(_, inner) => deep_value(inner, left, depth),
        _ => too_deep(depth, left),
    }
}

/// In a record with these values.
#[cycle(deep)]
fn deep_record(values: &[Value], left: usize, depth: usize) -> Option<usize>
    requires { depth ≤ 201 }
    ensures { result ≡ (if nat_lt 200 (depth + new_in (values_in values.now)) then Some left else deep_fields (values_in values.now) (depth + new_in (values_in values.now))) }
{
    let inside = depth + new_in(values);
    if inside > 200 {
        return Some(left);
    }
    deep_fields(values, inside)
}

/// In the heads before a pair, the last of them first, of a list that counts as one with so many symbols left; else what the pair
/// counts as, and the depth of its first statement.
#[cycle(deep)]
#[tactic(auto, using(crate::proofs::Lists::heads_deep))]
fn deep_heads(heads: &[Link], left: usize, depth: usize) -> Result<(usize, usize), usize>
    requires { depth ≤ 201 }
    ensures value { (hu : Tree × Tree) → deep_list (behind_all hu heads.now) left depth ≡ deep_behind result hu }
    ensures depth { IfOk result (λ p. p.1 ≤ 201) }
{
    let mut place = left;
    let mut inside = depth;
    let mut others = heads.len();
    while others > 0 {
        others -= 1;
        match deep_link(&heads[others], place, inside) {
            Err(first) => return Err(first),
            Ok(behind) => (place, inside) = behind,
        }
    }
    Ok((place, inside))
}

/// In a head before a list that counts as one with so many symbols left; else what the list behind it counts as, and the depth of
/// its first statement.
#[cycle(deep)]
fn deep_link(link: &Link, left: usize, depth: usize) -> Result<(usize, usize), usize>
    requires { depth ≤ 201 }
    ensures value { result ≡ deep_head (head_in link.now) (list_place link.now) left depth }
    ensures depth { IfOk result (λ p. p.1 ≤ 201) }
{
    match link {
        Link::Before(place, head) => {
            let inside = depth + new_of(head) + 1;
            if inside > 200 {
                return Err(left);
            }
            match deep_field(head, inside) {
                Some(first) => Err(first),
                None => Ok((*place, inside)),
            }
        }
    }
}

/// In a pair that counts as one with so many symbols left.
#[cycle(deep)]
#[tactic(auto, using(crate::proofs::Pairs::deep_two))]
fn deep_pair(pair: &Pair, left: usize, depth: usize) -> Option<usize>
    requires { depth ≤ 201 }
    ensures { result ≡ (if nat_lt 200 (depth + new_in (parts_in pair.now)) then Some left else deep_fields (parts_in pair.now) (depth + new_in (parts_in pair.now))) }
{
    let inside = depth + new_in_pair(pair);
    if inside > 200 {
        return Some(left);
    }
    match pair {
        Pair::Of(head, tail) => or_else(deep_field(head, inside), deep_field(tail, inside)),
    }
}

/// In what is made of these parts.
#[cycle(deep)]
fn deep_apply(values: &[Value], left: usize, depth: usize) -> Option<usize>
    requires { depth ≤ 201 }
    ensures { result ≡ (if nat_lt 200 (depth + new_in (values_in values.now)) then Some left else deep_parts (values_in values.now) depth) }
{
    if depth + new_in(values) > 200 {
        return Some(left);
    }
    deep_parts(values, depth)
}

/// In a statement with this body.
#[cycle(deep)]
fn deep_body(body: &[Statement], left: usize, depth: usize) -> Option<usize>
    requires { depth ≤ 201 }
    ensures { result ≡ (if nat_lt 200 depth then Some left else deep_statements (statements_in body.now) (depth + 1)) }
{
    if depth > 200 {
        return Some(left);
    }
    deep_statements(body, depth + 1)
}

/// In statements of this depth, or before them where that is above 200.
#[cycle(deep)]
fn deep_within(statements: &[Statement], left: usize, depth: usize) -> Option<usize>
    requires { depth ≤ 203 }
    ensures { result ≡ too_deep depth left (deep_statements (statements_in statements.now) depth) }
{
    if depth > 200 {
        return Some(left);
    }
    deep_statements(statements, depth)
}

/// In a part.
#[cycle(deep)]
fn deep_part(part: &Value, depth: usize) -> Option<usize>
    requires { depth ≤ 200 }
    ensures { result ≡ by_kind (value_of part.now) None (deep_value (value_of part.now) (left_of (value_of part.now)) (depth + 1)) }
{
    match part {
        Value::Variable(..) => None,
        _ => deep_value(part, left_of(part), depth + 1),
    }
}

/// In parts, each in the `local` of the one before.
#[cycle(deep)]
fn deep_parts(parts: &[Value], depth: usize) -> Option<usize>
    requires { depth + new_in (values_in parts.now) ≤ 200 }
    ensures { result ≡ deep_parts (values_in parts.now) depth }
{
    let mut inside = depth;
    for part in parts {
        if let Some(left) = deep_part(part, inside) {
            return Some(left);
        }
        inside += new_of(part);
    }
    None
}

/// In fields beside one another.
#[cycle(deep)]
fn deep_fields(values: &[Value], depth: usize) -> Option<usize>
    requires { depth ≤ 200 }
    ensures { result ≡ deep_fields (values_in values.now) depth }
{
    for value in values {
        if let Some(left) = deep_field(value, depth) {
            return Some(left);
        }
    }
    None
}

/// In a field.
#[cycle(deep)]
fn deep_field(value: &Value, depth: usize) -> Option<usize>
    requires { depth ≤ 200 }
    ensures { result ≡ by_kind (value_of value.now) None (deep_value (value_of value.now) (left_of (value_of value.now)) depth) }
{
    match value {
        Value::Variable(..) | Value::Integer(..) | Value::Atom(..) => None,
        _ => deep_value(value, left_of(value), depth),
    }
}

/// In clauses, each in the `else` branch of the one before.
#[cycle(deep)]
fn deep_clauses(clauses: &[ValueClause], depth: usize) -> Option<usize>
    requires { depth + (length clauses.now - 1) ≤ 201 }
    ensures { result ≡ deep_clauses (value_clauses_in clauses.now) depth }
{
    let mut inside = depth;
    for clause in clauses {
        let ValueClause::Then(_, value) = clause;
        if let Some(left) = deep_value(value, left_of(value), inside) {
            return Some(left);
        }
        inside += 1;
    }
    None
}

/// In a statement of this depth.
#[cycle(deep)]
#[tactic(auto, using(kernel_syntax::proofs::SugarItems::acts_of, kernel_syntax::proofs::SugarItems::local_of, kernel_syntax::proofs::SugarItems::thread_of, kernel_syntax::proofs::SugarItems::if_of, kernel_syntax::proofs::SugarItems::case_of, kernel_syntax::proofs::SugarItems::try_of, kernel_syntax::proofs::SugarItems::finally_of, kernel_syntax::proofs::SugarItems::clauses))]
fn deep_statement(statement: &Statement, depth: usize) -> Option<usize>
    requires { depth ≤ 201 }
    ensures { result ≡ deep_statement (statement_of statement.now) depth }
{
    match statement {
        Statement::Skip(left) => too_deep(depth, *left),
        Statement::Tell(left, _, value) => deep_value(value, *left, depth),
        Statement::Apply(left, _, values) => deep_apply(values.as_slice(), *left, depth),
        Statement::Local(left, _, body) => deep_body(body.as_slice(), *left, depth),
        Statement::Thread(left, _, body) => deep_body(body.as_slice(), *left, depth),
        Statement::If(left, subject, yes, no) => {
            let own = depth + new_of(subject);
            if own > 200 {
                return Some(*left);
            }
            let tested = deep_part(subject, depth);
            let chosen = deep_statements(yes.as_slice(), own + 1);
            let other = deep_statements(no.as_slice(), own + 1);
            or_else(tested, or_else(chosen, other))
        }
        Statement::Case(left, subject, clauses, no) => {
            let own = depth + new_of(subject);
            if own + clauses.len().saturating_sub(1) > 200 {
                return Some(*left);
            }
            let tested = deep_part(subject, depth);
            let chosen = deep_cases(clauses.as_slice(), own + 1);
            let other = deep_statements(no.as_slice(), own + clauses.len());
            or_else(tested, or_else(chosen, other))
        }
        Statement::Try(left, body, handler) => {
            let first = deep_body(body.as_slice(), *left, depth);
            or_else(first, deep_body(handler.as_slice(), *left, depth))
        }
        Statement::Finally(left, body, last) => {
            let first = deep_within(body.as_slice(), *left, depth + 2);
            or_else(first, deep_within(last.as_slice(), *left, depth + 2))
        }
    }
}

/// Here, where the depth is above 200.
fn too_deep(depth: usize, left: usize) -> Option<usize>
    ensures { result ≡ too_deep depth left None }
{
    if depth > 200 { Some(left) } else { None }
}

/// In a clause, before others.
#[cycle(deep)]
fn deep_clause(clause: &Clause, depth: usize) -> Option<usize>
    requires { depth ≤ 201 }
    ensures { (cs : Clauses) → deep_cases (case_and_of clause.now cs) depth ≡ or_else result (deep_cases cs (depth + 1)) }
{
    match clause {
        Clause::Then(_, body) => deep_statements(body.as_slice(), depth),
    }
}

/// In clauses, each in the `else` branch of the one before.
#[cycle(deep)]
fn deep_cases(clauses: &[Clause], depth: usize) -> Option<usize>
    requires { depth + (length clauses.now - 1) ≤ 201 }
    ensures { result ≡ deep_cases (clauses_in clauses.now) depth }
{
    let mut inside = depth;
    for clause in clauses {
        if let Some(left) = deep_clause(clause, inside) {
            return Some(left);
        }
        inside += 1;
    }
    None
}

/// In statements of this depth.
#[cycle(deep)]
fn deep_statements(statements: &[Statement], depth: usize) -> Option<usize>
    requires { depth ≤ 201 }
    ensures { result ≡ deep_statements (statements_in statements.now) depth }
{
    for statement in statements {
        if let Some(left) = deep_statement(statement, depth) {
            return Some(left);
        }
    }
    None
}

/// In a program.
pub fn deep(program: &[Statement]) -> Option<usize>
    ensures { result ≡ deep (statements_in program.now) }
{
    deep_statements(program, 1)
}
