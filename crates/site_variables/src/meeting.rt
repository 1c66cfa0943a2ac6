//! Names that are met.

ghost use Rattle.std.specs.Prelude.{◌≡◌, ◌++◌, [], ◌∷◌, OnOk};
ghost use Rattle.tree_node.specs.Each.{Each};
ghost use Rattle.site_message.specs.Vars.{vars_of, field_vars};
ghost use Rattle.site_model.specs.Bundle.{vars_of_equations, body_vars, message_vars};
ghost use Rattle.site_variables.specs.Variables.{IsLinked, IsMadeIfOwn};
ghost use Rattle.site_variables.specs.Meeting.{AreMet};

use crate::variables::{Variables, bundle_of};
use site_message::{Msg, Outbox};
use std::alloc::AllocError;
use tree_node::{Feature, Node, Term, VarName};

// One name is met.
fn meet_var(variables: &mut Variables, outbox: &mut Outbox, var: VarName) -> Result<(), AllocError>
    requires linked { IsLinked variables.old }
    requires made { IsMadeIfOwn variables.old.binder var }
    ensures { OnOk result (AreMet (var ∷ []) variables.old outbox.old variables.new outbox.new) }
{
    variables.binder.meet(var, outbox)?;
    variables.store.know(var)?;
    Ok(())
}

/// Names are met, one after another.
pub fn meet_vars(
    variables: &mut Variables,
    outbox: &mut Outbox,
    vars: &[VarName],
) -> Result<(), AllocError>
    requires linked { IsLinked variables.old }
    requires made { Each (IsMadeIfOwn variables.old.binder) vars.now }
    ensures { OnOk result (AreMet vars.now variables.old outbox.old variables.new outbox.new) }
{
    for var in vars {
        meet_var(variables, outbox, *var)?;
    }
    Ok(())
}

// The variable of a field.
fn var_of(field: &(Feature, VarName)) -> VarName
    ensures { result ≡ field.now.1 }
{
    field.1
}

// The variables of fields are met.
fn meet_fields(
    variables: &mut Variables,
    outbox: &mut Outbox,
    fields: &[(Feature, VarName)],
) -> Result<(), AllocError>
    requires linked { IsLinked variables.old }
    requires made { Each (IsMadeIfOwn variables.old.binder) (field_vars fields.now) }
    ensures { OnOk result (AreMet (field_vars fields.now) variables.old outbox.old variables.new outbox.new) }
{
    for field in fields {
        let var = var_of(field);
        meet_var(variables, outbox, var)?;
    }
    Ok(())
}

// The variables of a term are met.
fn meet_term(variables: &mut Variables, outbox: &mut Outbox, term: &Term) -> Result<(), AllocError>
    requires linked { IsLinked variables.old }
    requires made { Each (IsMadeIfOwn variables.old.binder) (vars_of term.now) }
    ensures { OnOk result (AreMet (vars_of term.now) variables.old outbox.old variables.new outbox.new) }
{
    match term {
        Term::Var(var) => meet_vars(variables, outbox, &[*var]),
        Term::Node(Node::Rec(_, fields)) => meet_fields(variables, outbox, fields.as_slice()),
        Term::Node(Node::Proc(_, _, _, vars)) => meet_vars(variables, outbox, vars.as_slice()),
        Term::Node(_) => meet_vars(variables, outbox, &[]),
    }
}

// A name and the variables of a term are met.
fn meet_equation(
    variables: &mut Variables,
    outbox: &mut Outbox,
    var: VarName,
    term: &Term,
) -> Result<(), AllocError>
    requires linked { IsLinked variables.old }
    requires made { Each (IsMadeIfOwn variables.old.binder) (var ∷ vars_of term.now) }
    ensures { OnOk result (AreMet (var ∷ vars_of term.now) variables.old outbox.old variables.new outbox.new) }
{
    meet_var(variables, outbox, var)?;
    meet_term(variables, outbox, term)?;
    Ok(())
}

// The variables of equations are met.
fn meet_equations(
    variables: &mut Variables,
    outbox: &mut Outbox,
    equations: &[(VarName, Term)],
) -> Result<(), AllocError>
    requires linked { IsLinked variables.old }
    requires made { Each (IsMadeIfOwn variables.old.binder) (vars_of_equations equations.now) }
    ensures { OnOk result (AreMet (vars_of_equations equations.now) variables.old outbox.old variables.new outbox.new) }
{
    for (var, term) in equations {
        meet_equation(variables, outbox, *var, term)?;
    }
    Ok(())
}

// The variables of a message outside its bundle are met.
fn meet_body(variables: &mut Variables, outbox: &mut Outbox, msg: &Msg) -> Result<(), AllocError>
    requires linked { IsLinked variables.old }
    requires made { Each (IsMadeIfOwn variables.old.binder) (body_vars msg.now) }
    ensures { OnOk result (AreMet (body_vars msg.now) variables.old outbox.old variables.new outbox.new) }
{
    match msg {
        Msg::Spawn { vars, .. } => meet_vars(variables, outbox, vars.as_slice()),
        Msg::Register { var, .. } => meet_vars(variables, outbox, &[*var]),
        Msg::BindReq { var, term, .. } | Msg::Binding { var, term, .. } => {
            meet_equation(variables, outbox, *var, term)
        }
        Msg::Put { content, .. } => meet_vars(variables, outbox, &[*content]),
        Msg::PortEnd { old, new, .. } => meet_vars(variables, outbox, &[*old, *new]),
        Msg::CellMake { content, .. } => meet_vars(variables, outbox, &[*content]),
        Msg::CellAsk { new, .. } => meet_vars(variables, outbox, &[*new]),
        Msg::CellOld { content, .. } => meet_vars(variables, outbox, &[*content]),
        _ => meet_vars(variables, outbox, &[]),
    }
}

/// The variables of a message are met: those outside its bundle, then those of the bundle.
pub fn meet_message(
    variables: &mut Variables,
    outbox: &mut Outbox,
    msg: &Msg,
) -> Result<(), AllocError>
    requires linked { IsLinked variables.old }
    requires made { Each (IsMadeIfOwn variables.old.binder) (message_vars msg.now) }
    ensures { OnOk result (AreMet (message_vars msg.now) variables.old outbox.old variables.new outbox.new) }
{
    meet_body(variables, outbox, msg)?;
    meet_equations(variables, outbox, bundle_of(msg))?;
    Ok(())
}
