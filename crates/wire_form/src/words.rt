//! Which messages can be spelled in form 1.

ghost use Rattle.std.specs.Prelude.{◌↔◌, IsTrue};
ghost use Rattle.tree_node.specs.Each.{Each};
ghost use Rattle.wire_reader.specs.Numbers.{EachInFeature, EachInField, EachInTerm, EachInEquation, EachInBundle, IsWord, FitsWords};

use site_message::Msg;
use tree_node::{Feature, Integer, Node, Term, VarName};

// Whether an integer has 64 bits.
fn is_word(integer: &Integer) -> bool
    ensures { IsTrue result ↔ IsWord integer.now }
{
    let value = integer.get();
    -9_223_372_036_854_775_808 <= value && value <= 9_223_372_036_854_775_807
}

// Whether the feature of a field, if it is an integer, has 64 bits.
fn field_fits_words(field: &(Feature, VarName)) -> bool
    ensures { IsTrue result ↔ EachInField IsWord field.now }
{
    match &field.0 {
        Feature::Int(value) => is_word(value),
        Feature::Atom(_) => true,
    }
}

// Whether each integer among the features has 64 bits.
#[tactic(auto, using(site_message::proofs::EachLemmas::each_step, site_message::proofs::EachLemmas::each_stop, site_message::proofs::EachLemmas::each_end))]
fn fields_fit_words(fields: &[(Feature, VarName)]) -> bool
    ensures { IsTrue result ↔ Each (EachInField IsWord) fields.now }
{
    for field in fields {
        if !field_fits_words(field) {
            return false;
        }
    }
    true
}

// Whether each integer of the term has 64 bits, and it is no port and no stationary cell.
fn term_fits_words(term: &Term) -> bool
    ensures { IsTrue result ↔ EachInTerm IsWord ⊥ term.now }
{
    match term {
        Term::Node(Node::Int(value)) => is_word(value),
        Term::Node(Node::Rec(_, fields)) => fields_fit_words(fields.as_slice()),
        Term::Node(Node::Cell(cell)) => cell.at == 0,
        Term::Node(Node::Port(_)) => false,
        _ => true,
    }
}

// So it is with each term of the bundle.
#[tactic(auto, using(site_message::proofs::EachLemmas::each_step, site_message::proofs::EachLemmas::each_stop, site_message::proofs::EachLemmas::each_end))]
fn bundle_fits_words(equations: &[(VarName, Term)]) -> bool
    ensures { IsTrue result ↔ EachInBundle IsWord ⊥ equations.now }
{
    for equation in equations {
        if !term_fits_words(&equation.1) {
            return false;
        }
    }
    true
}

/// Whether form 1 can have a message that `site_message::wire_fits` tells: each of its integers, features included, has 64 bits, and it
/// has nothing of ports and stationary cells. It takes a step for each equation and each field.
pub fn fits_words(msg: &Msg) -> bool
    ensures { IsTrue result ↔ FitsWords msg.now }
{
    match msg {
        Msg::Spawn { bundle, .. } | Msg::Put { bundle, .. } => bundle_fits_words(bundle.as_slice()),
        Msg::BindReq { term, bundle, .. } | Msg::Binding { term, bundle, .. } => {
            term_fits_words(term) && bundle_fits_words(bundle.as_slice())
        }
        Msg::Register { .. } | Msg::Get { .. } | Msg::Forward { .. } => true,
        Msg::PortSend { .. }
        | Msg::PortEnd { .. }
        | Msg::CellMake { .. }
        | Msg::CellAsk { .. }
        | Msg::CellOld { .. } => false,
    }
}
