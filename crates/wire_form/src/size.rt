//! How many bytes a message's spelling has.

ghost use Rattle.std.specs.Prelude.{◌≤◌};

use site_message::Msg;
use tree_node::{Feature, Node, Term, VarName};
use wire_reader::Form;

// A site and a number.
const NAME: usize = 9;

// A count of two bytes.
const COUNT: usize = 2;

// An integer.
fn integer_size(form: Form) -> usize
    ensures { result ≤ 16 }
{
    match form {
        Form::One => 8,
        Form::Two => 16,
    }
}

// A feature and a variable.
fn field_size(form: Form, field: &(Feature, VarName)) -> usize {
    match &field.0 {
        Feature::Int(_) => 1 + integer_size(form) + NAME,
        Feature::Atom(text) => (2 + NAME).saturating_add(text.as_slice().len()),
    }
}

// The fields of a record.
fn fields_size(form: Form, fields: &[(Feature, VarName)]) -> usize {
    let mut size = 1usize;
    for field in fields {
        size = size.saturating_add(field_size(form, field));
    }
    size
}

// A count of two bytes and the names.
fn variables_size(vars: &[VarName]) -> usize {
    COUNT.saturating_add(vars.len().saturating_mul(NAME))
}

// A term with its tag.
fn term_size(form: Form, term: &Term) -> usize {
    match term {
        Term::Var(_) | Term::Node(Node::Port(_)) => 1 + NAME,
        Term::Node(Node::Cell(cell)) => { if cell.at == 0 { 1 + NAME } else { 1 + NAME + 1 } }
        Term::Node(Node::Int(_)) => 1 + integer_size(form),
        Term::Node(Node::Atom(text)) => 2usize.saturating_add(text.as_slice().len()),
        Term::Node(Node::Rec(label, fields)) => 2usize
            .saturating_add(label.as_slice().len())
            .saturating_add(fields_size(form, fields.as_slice())),
        Term::Node(Node::Proc(_, _, _, vars)) => {
            (1 + NAME + 4 + 1usize).saturating_add(variables_size(vars.as_slice()))
        }
    }
}

// A count of two bytes and the equations.
fn bundle_size(form: Form, equations: &[(VarName, Term)]) -> usize {
    let mut size = COUNT;
    for equation in equations {
        size = size.saturating_add(NAME.saturating_add(term_size(form, &equation.1)));
    }
    size
}

/// The number of bytes of a message's spelling in the form. It is looked at before they are written, so that they are written into
/// memory that is taken once; nothing else rests on it.
pub(crate) fn message_size(form: Form, msg: &Msg) -> usize {
    match msg {
        Msg::Spawn { vars, bundle, .. } => (1 + NAME + 4)
            .saturating_add(variables_size(vars.as_slice()))
            .saturating_add(bundle_size(form, bundle.as_slice())),
        Msg::Register { .. } | Msg::Get { .. } | Msg::Forward { .. } => 1 + NAME + 1,
        Msg::BindReq { term, bundle, .. } => (1 + 2 * NAME)
            .saturating_add(term_size(form, term))
            .saturating_add(bundle_size(form, bundle.as_slice())),
        Msg::Binding { term, bundle, .. } => (1 + NAME)
            .saturating_add(term_size(form, term))
            .saturating_add(bundle_size(form, bundle.as_slice())),
        Msg::Put { bundle, .. } | Msg::CellOld { bundle, .. } => {
            (1 + 2 * NAME).saturating_add(bundle_size(form, bundle.as_slice()))
        }
        Msg::PortSend { .. } => 1 + 2 * NAME + 1,
        Msg::PortEnd { bundle, .. } => {
            (1 + 3 * NAME).saturating_add(bundle_size(form, bundle.as_slice()))
        }
        Msg::CellMake { bundle, .. } => {
            (2 + 2 * NAME).saturating_add(bundle_size(form, bundle.as_slice()))
        }
        Msg::CellAsk { bundle, .. } => {
            (3 + 3 * NAME).saturating_add(bundle_size(form, bundle.as_slice()))
        }
    }
}
