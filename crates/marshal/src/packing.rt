//! A message gets its bundle.

ghost use Rattle.std.specs.Prelude.{◌≡◌, IfOk};
ghost use Rattle.site_message.specs.Vars.{vars_of as term_vars};
ghost use Rattle.site_model.specs.Bundle.{with_own_bundle, bundle_of, with_bundle, bundle_from};

use crate::exporting::{export, export_from};
use crate::vars::vars_of;
use site_message::{Bundle, Msg, Sent};
use std::alloc::{AllocError, Global};
use tree_node::Term;
use tree_store::Store;

/// The message with its bundle: the first known equations that are reached from a new thread's variables, from those of a term
/// that is told or asked for, or from a cell's content. A message of another kind has none.
pub fn pack(alloc: Global, store: &Store, sent: Sent, limit: usize) -> Result<Sent, AllocError>
    ensures { IfOk result (λ m. m ≡ with_own_bundle limit store.now.equations sent) }
{
    let Sent { to, mut msg } = sent;
    let bundle = bundle_of(alloc, store, &msg, limit)?;
    put_bundle(&mut msg, bundle);
    Ok(Sent { to, msg })
}

// The bundle of a message, empty where its kind has none.
fn bundle_of(alloc: Global, store: &Store, msg: &Msg, limit: usize) -> Result<Bundle, AllocError>
    ensures { IfOk result (λ b. with_bundle b msg.now ≡ with_bundle (bundle_of limit store.now.equations msg.now) msg.now) }
{
    match msg {
        Msg::Spawn { vars, .. } => export_from(alloc, store, vars.as_slice(), limit),
        Msg::BindReq { term, .. } => export_term(alloc, store, term, limit),
        Msg::Binding { term, .. } => export_term(alloc, store, term, limit),
        Msg::Put { content, .. } => export(alloc, store, *content, limit),
        Msg::PortEnd { old, new, .. } => export_from(alloc, store, &[*old, *new], limit),
        Msg::CellMake { content, .. } => export(alloc, store, *content, limit),
        Msg::CellAsk { new, .. } => export(alloc, store, *new, limit),
        Msg::CellOld { content, .. } => export(alloc, store, *content, limit),
        _ => Ok(Bundle::new()),
    }
}

// The message has this bundle from now on, where its kind has one.
fn put_bundle(msg: &mut Msg, bundle: Bundle)
    ensures { msg.new ≡ with_bundle bundle msg.old }
{
    match msg {
        Msg::Spawn { bundle: place, .. } => *place = bundle,
        Msg::Register { .. } => {}
        Msg::BindReq { bundle: place, .. } => *place = bundle,
        Msg::Binding { bundle: place, .. } => *place = bundle,
        Msg::Get { .. } => {}
        Msg::Forward { .. } => {}
        Msg::Put { bundle: place, .. } => *place = bundle,
        Msg::PortSend { .. } => {}
        Msg::PortEnd { bundle: place, .. } => *place = bundle,
        Msg::CellMake { bundle: place, .. } => *place = bundle,
        Msg::CellAsk { bundle: place, .. } => *place = bundle,
        Msg::CellOld { bundle: place, .. } => *place = bundle,
    }
}

// The first known equations that are reached from the variables of a term.
fn export_term(
    alloc: Global,
    store: &Store,
    term: &Term,
    limit: usize,
) -> Result<Bundle, AllocError>
    ensures { IfOk result (λ b. b ≡ bundle_from limit store.now.equations (term_vars term.now)) }
{
    let vars = vars_of(alloc, term)?;
    export_from(alloc, store, &vars, limit)
}
