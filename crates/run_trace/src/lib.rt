//! What the steps of a run did: where exceptions rose, and where its threads wait.
//!
//! **For**: whoever tells why a run ended as it did, in the words of its program.
//!
//! **Promises**: a [`Trace`] makes a run again pick by pick, each a step of the model (`ok`), and else tells the part of a step that the pick
//! fails (`refused`). Beside the machine it keeps the exceptions that rose (`raises`): how many steps came before, which statement the
//! thread had begun last, in which environment, which variable was raised, and whether a catch mark took it; and the threads that were
//! made, with the statements that made them (`births`). [`FirstRaises`] finds the first exception of a variable, which a handler may have
//! raised again. At rest `waiting` tells all living threads in the order in which they were made, each with the statement that it goes
//! on with and what it needs (`AreWaiting`). After an error the run is given up.
//!
//! What is told is a function of the program and the picks, and laws say what it means: each exception that nothing caught is that of a step
//! which leaves its thread with the report alone, each thread that comes to stand at a report has one, and no step has two
//! (`uncaught_are_reports`); each thread but the first was made by a step (`threads_have_births`). Worked examples: `worked_exceptions`.
//!
//! **Stands on** `central_machine`, whose steps it makes, `machine_state` for the numbers of names, `oz_model`, `kernel_syntax`, `tree_node`, and
//! `indexmap` for look-ups by thread.
//!
//! **Tests alone show** that memory suffices where it is ample. Cost is told by no clause: a step costs what the machine's step does, a look-up
//! and a copy of the environment on top.
//!
//! **Source**: exceptions are those of Van Roy and Haridi, *Concepts, Techniques, and Models of Computer Programming*, section 2.7.
#![tactic(auto)]

mod begun;
mod findings;
mod first;
mod laws;
mod notes;
mod top;
mod trace;

pub use findings::{Begun, Birth, Raise, Waiting};
pub use first::FirstRaises;
pub use laws::{threads_have_births, uncaught_are_reports, worked_exceptions};
pub use trace::Trace;
