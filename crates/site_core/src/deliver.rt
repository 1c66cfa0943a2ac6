//! What a site does with a message that is fit, once it is opened.

ghost use Rattle.std.specs.Prelude.{◌≡◌, ◌<◌, ◌^◌, OnOk, List};
ghost use Rattle.kernel_syntax.specs.declared.stmt.Stmt.{Stmt};
ghost use Rattle.thread_roster.specs.Order.{HaveComeBehind};
ghost use Rattle.site_model.specs.Messages.{message_row};
ghost use Rattle.site_units.specs.Invariant.{IsConsistent};
ghost use Rattle.site_units.specs.Turns.{IsRowMade};
ghost use Rattle.site_core.specs.Turns.{CanAnswer, CanDeliver};

use kernel_syntax::Program;
use site_message::Msg;
use site_units::{
    Core, Output, begin, exchange_for, follow, grant, hear, learn, move_end, pass_on, register,
    resume_sent, resume_served, serve,
};
use std::alloc::AllocError;
use token_chain::EarlyRequest;

// The row of a request of another site's thread, or of an answer that came for one of this site.
fn deliver_request_or_answer(
    core: &mut Core,
    output: &mut Output,
    msg: Msg,
) -> Result<(), AllocError>
    requires consistent { (p : List Stmt) × IsConsistent p core.old }
    requires deliverable { CanAnswer core.old msg }
    requires room { core.old.steps < 2 ^ 50 }
    ensures row { OnOk result ((p : List Stmt) → IsConsistent p core.old → IsRowMade p (message_row p 0 msg) core.old output.old core.new output.new) }
    ensures order { OnOk result (HaveComeBehind core.old.threads.order core.new.threads.order) }
    ensures steps { OnOk result (core.new.steps ≡ core.old.steps) }
{
    match msg {
        Msg::PortSend {
            port,
            thread,
            asking,
        } => move_end(core, output, port, thread, asking),
        Msg::PortEnd {
            thread,
            old,
            new,
            ..
        } => resume_sent(core, output, thread, old, new),
        Msg::CellMake { cell, content, .. } => hear(core, output, cell, content),
        Msg::CellAsk {
            cell,
            thread,
            asking,
            new,
            ..
        } => {
            let request = EarlyRequest {
                thread,
                asking,
                new,
            };
            exchange_for(core, output, cell, request)
        }
        Msg::CellOld {
            thread,
            content,
            ..
        } => resume_served(core, output, thread, content),
        _ => unreachable!(),
    }
}

/// The row of the message's kind. What it sends is bare: it gets its bundles at the row's end.
pub fn deliver(
    core: &mut Core,
    output: &mut Output,
    program: &Program,
    msg: Msg,
) -> Result<(), AllocError>
    requires consistent { IsConsistent program.now core.old }
    requires deliverable { CanDeliver program.now core.old msg }
    requires room { core.old.steps < 2 ^ 50 }
    ensures row { OnOk result (IsRowMade program.now (message_row program.now 0 msg) core.old output.old core.new output.new) }
    ensures order { OnOk result (HaveComeBehind core.old.threads.order core.new.threads.order) }
    ensures steps { OnOk result (core.new.steps ≡ core.old.steps) }
{
    match msg {
        Msg::Spawn {
            thread,
            code,
            vars,
            ..
        } => begin(core, output, program, thread, code, vars),
        Msg::Register { var, asking } => register(core, output, var, asking),
        Msg::BindReq {
            var,
            thread,
            term,
            ..
        } => grant(core, output, var, thread, term),
        Msg::Binding { var, term, .. } => learn(core, output, var, term),
        Msg::Get { cell, asking } => pass_on(core, output, cell, asking),
        Msg::Forward { cell, next } => follow(core, output, cell, next),
        Msg::Put { cell, content, .. } => serve(core, output, program, cell, content),
        _ => deliver_request_or_answer(core, output, msg),
    }
}
