//! What is asked of the machine before a step and behind it.

ghost use Rattle.std.specs.Prelude.{◌≡◌, List, IfOk, OnOk, length};
ghost use Rattle.oz_model.specs.Step.{stack_of};
ghost use Rattle.central_machine.specs.Getters.{env_on, top_of};
ghost use Rattle.run_trace.specs.declared.findings.Begun.{Begun as Began};
ghost use Rattle.run_trace.specs.Begun.{begun_on, begun_with};
ghost use Rattle.run_trace.specs.Kept.{AreLast, raised_at, raised_by_row, second_name, thread_name};
ghost use Rattle.run_trace.specs.Raised.{is_caught};

use crate::begun::LastBegun;
use crate::findings::Begun;
use central_machine::{Central, Top};
use kernel_syntax::{Program, Stmt};
use std::alloc::{AllocError, Global};
use tree_node::{Name, Pick, Seq, ThreadName, VarName};

/// What the pick of a step tells before it: how many steps were made, whose step it is, the variable that it raises, and the thread that it
/// makes, if it does so.
#[derive(Clone, Copy, Debug)]
pub struct Told {
    pub before: usize,
    pub thread: ThreadName,
    pub raised: Option<VarName>,
    pub made: Option<ThreadName>,
}

/// The statement on top of a thread's stack, if one is there.
pub fn begun_by(
    alloc: Global,
    central: &Central<'_>,
    thread: ThreadName,
) -> Result<Option<Begun>, AllocError>
    ensures { IfOk result (λ o. o ≡ begun_on thread (stack_of central.now.state thread)) }
{
    let Some(Top::Code(code)) = central.top(thread) else {
        return Ok(None);
    };
    let env = Vec::from_slice(alloc, central.environment(thread))?;
    Ok(Some(Begun {
        thread,
        code,
        env: Seq::from_vec(env),
    }))
}

/// Keeps the statement on top of a thread's stack, which its next step begins.
pub fn begin(
    alloc: Global,
    central: &Central<'_>,
    last: &mut LastBegun,
    thread: ThreadName,
) -> Result<(), AllocError>
    ghost given: { List Began }
    ensures { AreLast last.old given → OnOk result (AreLast last.new (begun_with central.now.state thread given)) }
{
    match begun_by(alloc, central, thread)? {
        None => Ok(()),
        Some(begun) => last.put(begun),
    }
}

// The second of two fresh names, where it is a variable.
fn second_of(fresh: &[Name]) -> Option<VarName>
    ensures { result ≡ second_name fresh.now }
{
    match fresh {
        [_, Name::Var(raised)] => Some(*raised),
        _ => None,
    }
}

// The thread that the step of a pick makes, if it makes one: its only fresh name.
fn made_by(fresh: &[Name]) -> Option<ThreadName>
    ensures { result ≡ thread_name fresh.now }
{
    match fresh {
        [Name::Thread(made)] => Some(*made),
        _ => None,
    }
}

// The variable that the step of this statement raises, which is on top of the thread's stack.
fn raised_by_row(
    central: &Central<'_>,
    thread: ThreadName,
    stmt: &Stmt,
    fresh: &[Name],
) -> Option<VarName>
    ensures { result ≡ raised_by_row fresh.now (env_on (stack_of central.now.state thread)) stmt.now }
{
    match stmt {
        Stmt::Raise(position) => Some(central.variable_at(thread, *position)),
        Stmt::Local { .. } => None,
        _ => second_of(fresh),
    }
}

// The variable that the step of a pick raises, if it raises one: that of `raise`, or the second of the two fresh ones that an exception of
// the system takes.
fn raised_by(central: &Central<'_>, program: &Program, pick: &Pick) -> Option<VarName>
    ensures { result ≡ raised_at program.now pick.now.fresh (env_on (stack_of central.now.state pick.now.thread)) (top_of (stack_of central.now.state pick.now.thread)) }
{
    let fresh = pick.fresh.as_slice();
    match central.top(pick.thread) {
        Some(Top::Code(code)) => {
            if code.0 as usize >= program.len() {
                return second_of(fresh);
            }
            raised_by_row(central, pick.thread, program.code(code), fresh)
        }
        Some(Top::Goals) => second_of(fresh),
        _ => None,
    }
}

/// What the next step does, by its pick.
pub fn told_by(central: &Central<'_>, program: &Program, pick: &Pick) -> Told
    ensures before { result.before ≡ length central.now.picks }
    ensures thread { result.thread ≡ pick.now.thread }
    ensures raised { result.raised ≡ raised_at program.now pick.now.fresh (env_on (stack_of central.now.state pick.now.thread)) (top_of (stack_of central.now.state pick.now.thread)) }
    ensures made { result.made ≡ thread_name pick.now.fresh }
{
    Told {
        before: central.picks().len(),
        thread: pick.thread,
        raised: raised_by(central, program, pick),
        made: made_by(pick.fresh.as_slice()),
    }
}

/// Whether a catch mark took the exception that the last step of this thread raised: its report is not on top.
pub fn was_caught(central: &Central<'_>, thread: ThreadName) -> bool
    ensures { result ≡ is_caught (stack_of central.now.state thread) }
{
    match central.top(thread) {
        Some(Top::Report(_)) => false,
        _ => true,
    }
}
