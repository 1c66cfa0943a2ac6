//! The variables of a term.

ghost use Rattle.std.specs.Prelude.{◌≡◌, ◌++◌, IfOk, OnOk};
ghost use Rattle.site_message.specs.Vars.{vars_of, field_vars};

use std::alloc::{AllocError, Global};
use tree_node::{Feature, Node, Term, VarName};

/// The variables of a term, in their order.
pub fn vars_of(alloc: Global, term: &Term) -> Result<Vec<VarName>, AllocError>
    ensures { IfOk result (λ v. v.items ≡ vars_of term.now) }
{
    let mut vars = Vec::new(alloc);
    push_vars(&mut vars, term)?;
    Ok(vars)
}

/// Puts the variables of a term behind others, in their order.
pub fn push_vars(vars: &mut Vec<VarName>, term: &Term) -> Result<(), AllocError>
    ensures { OnOk result (vars.new.items ≡ vars.old.items ++ vars_of term.now) }
{
    match term {
        Term::Var(var) => {
            vars.push(*var)?;
            Ok(())
        }
        Term::Node(Node::Rec(_, fields)) => push_field_vars(vars, fields.as_slice()),
        Term::Node(Node::Proc(_, _, _, held)) => vars.extend_from_slice(held.as_slice()),
        Term::Node(_) => Ok(()),
    }
}

// Puts the variables of fields behind others, in their order.
fn push_field_vars(vars: &mut Vec<VarName>, fields: &[(Feature, VarName)]) -> Result<(), AllocError>
    ensures { OnOk result (vars.new.items ≡ vars.old.items ++ field_vars fields.now) }
{
    for field in fields {
        let var = var_of(field);
        vars.push(var)?;
    }
    Ok(())
}

// The variable of a field.
fn var_of(field: &(Feature, VarName)) -> VarName
    ensures { result ≡ field.now.1 }
{
    field.1
}
