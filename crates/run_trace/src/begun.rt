//! The statement that each thread began last.

ghost use Rattle.std.specs.Prelude.{◌≡◌, [], Some, IfOk, OnOk, if◌then◌else◌};
ghost use Rattle.tree_node.specs.declared.names.ThreadName.{ThreadName as Named};
ghost use Rattle.tree_node.specs.State.{equal_thread};
ghost use Rattle.run_trace.specs.Births.{birth_of};
ghost use Rattle.run_trace.specs.Kept.{entry_of};
ghost use Rattle.run_trace.specs.Raised.{raise_of};

use crate::findings::{Begun, Birth, Raise};
use crate::top::Told;
use indexmap::IndexMap;
use std::alloc::{AllocError, Global};
use std::marker::Model;
use tree_node::{Seq, ThreadName};

/// Of each thread the statement that it began last, by the thread's name.
#[derive(Drop)]
pub struct LastBegun {
    alloc: Global,
    entries: IndexMap<ThreadName, Begun>,
}

impl Model for LastBegun {
    ghost use Rattle.std.specs.Prelude.{List};
    ghost use Rattle.tree_node.specs.declared.names.ThreadName.{ThreadName};
    ghost use Rattle.run_trace.specs.declared.findings.Begun.{Begun};

    ghost Value = { List (ThreadName × Begun) };

    ghost view = { λ b. b.entries.entries };
}

impl LastBegun {
    /// No thread began anything.
    pub fn new(alloc: Global) -> LastBegun
        ensures { result ≡ [] }
    {
        LastBegun {
            alloc,
            entries: IndexMap::new(alloc),
        }
    }

    /// Its thread begins this.
    pub fn put(&mut self, begun: Begun) -> Result<(), AllocError>
        ensures { OnOk result ((n : Named) → entry_of self.new n ≡ (if equal_thread begun.thread n then Some begun else entry_of self.old n)) }
    {
        self.entries.insert(begun.thread, begun)?;
        Ok(())
    }

    /// A copy of what a thread began last.
    pub fn get(&self, thread: ThreadName) -> Result<Option<Begun>, AllocError>
        ensures { IfOk result (λ o. o ≡ entry_of self.now thread) }
    {
        match self.entries.get(&thread) {
            None => Ok(None),
            Some(begun) => Ok(Some(copy_begun(self.alloc, begun)?)),
        }
    }

    /// The birth of the thread that a step made of which the pick told this, if it made one.
    pub fn birth(&self, told: Told) -> Option<Birth>
        ensures { result ≡ birth_of (entry_of self.now told.thread) told.made }
    {
        let Some(thread) = told.made else {
            return None;
        };
        match self.entries.get(&told.thread) {
            None => None,
            Some(begun) => Some(Birth {
                thread,
                maker: begun.thread,
                code: begun.code,
            }),
        }
    }

    /// The exception that a step raised of which the pick told this, if it raised one, and whether a catch mark took it.
    pub fn raise(&self, told: Told, caught: bool) -> Result<Option<Raise>, AllocError>
        ensures { IfOk result (λ o. o ≡ raise_of told.before (entry_of self.now told.thread) told.raised caught) }
    {
        let Some(raised) = told.raised else {
            return Ok(None);
        };
        match self.get(told.thread)? {
            None => Ok(None),
            Some(begun) => Ok(Some(Raise {
                before: told.before,
                begun,
                raised,
                caught,
            })),
        }
    }
}

// The same statement of the same thread.
fn copy_begun(alloc: Global, begun: &Begun) -> Result<Begun, AllocError>
    ensures { IfOk result (λ b. b ≡ begun.now) }
{
    let env = Vec::from_slice(alloc, begun.env.as_slice())?;
    Ok(Begun {
        thread: begun.thread,
        code: begun.code,
        env: Seq::from_vec(env),
    })
}
