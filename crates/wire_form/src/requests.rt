//! Requests of threads that wait for their answer, and those answers, as bytes: form 2 alone has them.

ghost use Rattle.std.specs.Prelude.{◌≡◌, ◌+◌, ◌∷◌, ◌++◌, OnOk};
ghost use Rattle.site_message.specs.Wire.{IsSite, FitsVar, IsRequestOrAnswer, FitsWire};
ghost use Rattle.site_message.specs.declared.message.Msg.TheVariants as messages;
ghost use Rattle.byte_fields.specs.Field.{◌before◌};
ghost use Rattle.wire_reader.specs.Format.{lead, IsTwo, site, var_name, stationary_name, thread_name, message};
ghost use Rattle.wire_reader.specs.Numbers.{EachInMessage, HasRoom};
ghost use Rattle.wire_form.specs.Writing.{IsWritten};

use crate::writing::{
    put_bundle, put_kind, put_port, put_site, put_stationary, put_thread, put_var,
};
use site_message::{Bundle, Msg};
use std::alloc::AllocError;
use tree_node::{CellName, PortName, ThreadName, VarName};
use wire_reader::Form;

// A message by which a thread that waits at the asking site sends to a port.
fn put_port_request(
    out: &mut Vec<u8>,
    form: Form,
    port: PortName,
    thread: ThreadName,
    asking: u32,
) -> Result<(), AllocError>
    requires fits { FitsWire (messages.PortSend port thread asking) }
    requires room { IsTwo form }
    ensures { IsWritten (message form) (messages.PortSend port thread asking) out.old.items out.new.items result }
{
    put_kind(out, form, 8)?;
    put_port(out, port)?;
    put_thread(out, thread)?;
    put_site(out, asking)
}

// A message that tells a thread the ends of a port to which it sent.
fn put_ends(
    out: &mut Vec<u8>,
    form: Form,
    thread: ThreadName,
    old: VarName,
    new: VarName,
    bundle: &Bundle,
) -> Result<(), AllocError>
    requires fits { FitsWire (messages.PortEnd thread old new bundle.now) }
    requires room { EachInMessage (HasRoom form) (IsTwo form) (messages.PortEnd thread old new bundle.now) }
    ensures { IsWritten (message form) (messages.PortEnd thread old new bundle.now) out.old.items out.new.items result }
{
    put_kind(out, form, 9)?;
    put_thread(out, thread)?;
    put_var(out, old)?;
    put_var(out, new)?;
    put_bundle(out, form, bundle.as_slice())
}

// A message that tells the home of a stationary cell its first content.
fn put_new_cell(
    out: &mut Vec<u8>,
    form: Form,
    cell: CellName,
    content: VarName,
    bundle: &Bundle,
) -> Result<(), AllocError>
    requires fits { FitsWire (messages.CellMake cell content bundle.now) }
    requires room { EachInMessage (HasRoom form) (IsTwo form) (messages.CellMake cell content bundle.now) }
    ensures { IsWritten (message form) (messages.CellMake cell content bundle.now) out.old.items out.new.items result }
{
    put_kind(out, form, 10)?;
    put_stationary(out, cell)?;
    put_var(out, content)?;
    put_bundle(out, form, bundle.as_slice())
}

// A message by which a thread that waits at the asking site exchanges the content of a stationary cell, up to its bundle.
fn put_exchange(
    out: &mut Vec<u8>,
    form: Form,
    cell: CellName,
    thread: ThreadName,
    asking: u32,
    new: VarName,
) -> Result<(), AllocError>
    requires cell { IsSite cell.site × IsSite cell.at }
    requires thread { IsSite thread.site }
    requires asking { IsSite asking }
    requires new { FitsVar new }
    ensures { OnOk result ((stationary_name before thread_name before site before var_name).Has (cell, (thread, (asking, new))) ×
        (out.new.items ≡ out.old.items ++ (lead form + 11) ∷ (stationary_name before thread_name before site before var_name).spelling (cell, (thread, (asking, new))))) }
{
    put_kind(out, form, 11)?;
    put_stationary(out, cell)?;
    put_thread(out, thread)?;
    put_site(out, asking)?;
    put_var(out, new)
}

// A message that tells a thread the old content of a stationary cell.
fn put_old_content(
    out: &mut Vec<u8>,
    form: Form,
    thread: ThreadName,
    content: VarName,
    bundle: &Bundle,
) -> Result<(), AllocError>
    requires fits { FitsWire (messages.CellOld thread content bundle.now) }
    requires room { EachInMessage (HasRoom form) (IsTwo form) (messages.CellOld thread content bundle.now) }
    ensures { IsWritten (message form) (messages.CellOld thread content bundle.now) out.old.items out.new.items result }
{
    put_kind(out, form, 12)?;
    put_thread(out, thread)?;
    put_var(out, content)?;
    put_bundle(out, form, bundle.as_slice())
}

// A request of a thread that waits for its answer, or an answer, which form 2 alone has.
pub(crate) fn put_request_or_answer(
    out: &mut Vec<u8>,
    form: Form,
    msg: &Msg,
) -> Result<(), AllocError>
    requires later { IsRequestOrAnswer msg.now }
    requires fits { FitsWire msg.now }
    requires room { EachInMessage (HasRoom form) (IsTwo form) msg.now }
    ensures { IsWritten (message form) msg.now out.old.items out.new.items result }
{
    match msg {
        Msg::PortSend {
            port,
            thread,
            asking,
        } => put_port_request(out, form, *port, *thread, *asking),
        Msg::PortEnd {
            thread,
            old,
            new,
            bundle,
        } => put_ends(out, form, *thread, *old, *new, bundle),
        Msg::CellMake {
            cell,
            content,
            bundle,
        } => put_new_cell(out, form, *cell, *content, bundle),
        Msg::CellAsk {
            cell,
            thread,
            asking,
            new,
            bundle,
        } => {
            put_exchange(out, form, *cell, *thread, *asking, *new)?;
            put_bundle(out, form, bundle.as_slice())
        }
        Msg::CellOld {
            thread,
            content,
            bundle,
        } => put_old_content(out, form, *thread, *content, bundle),
        _ => unreachable!(),
    }
}
