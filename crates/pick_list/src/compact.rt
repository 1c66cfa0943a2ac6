//! Picks to which none is added, in as little memory as they need.

ghost use Rattle.std.specs.Prelude.{◌≡◌, ◌∷◌, [], length, map, IfOk, IfSome, OnOk, OnErr};
ghost use Rattle.pick_list.specs.Columns.{AreColumns, columns_of, picks_below};
ghost use Rattle.pick_list.specs.Compact.{IsForm, IsFormOf, stretch_of, compact_names, picks_in, wide};

use crate::columns::{Bind, Naming, SmallNaming, Stretch, picks_of, wide_namings};
use crate::list::PickList;
use crate::names::{CompactNames, NameColumn};
use std::alloc::{AllocError, Global};
use std::marker::Model;
use tree_node::{Pick, ThreadName};

/// How picks are kept: those of one thread, and those of several, where the numbers are small, and any others as a list. The first
/// fields stand in the variant itself, where they take less.
#[derive(Drop)]
pub enum Form {
    One {
        count: u16,
        site: u32,
        num: u64,
        names: CompactNames,
        namings: Vec<SmallNaming>,
        binds: Vec<Bind>,
    },
    Several {
        count: u16,
        stretches: Box<Vec<Stretch>>,
        names: CompactNames,
        namings: Vec<SmallNaming>,
        binds: Vec<Bind>,
    },
    Whole(Box<PickList>),
}

/// Picks in the order of their steps, which contracts see as a list, and to which none is added. They stand in columns as those of a
/// [`PickList`] do: those of one thread that take no names and add no equations take no memory for each, and the variables that the
/// others take take none where their numbers count up.
#[derive(Drop)]
pub struct CompactPicks {
    form: Form,
}

impl Model for CompactPicks {
    ghost use Rattle.std.specs.Prelude.{List};
    ghost use Rattle.tree_node.specs.declared.pick.Pick.{Pick};
    ghost use Rattle.pick_list.specs.Compact.{IsForm, picks_in};

    ghost Value = { List Pick };

    ghost view = { λ p. picks_in p.form };

    ghost invariant = { λ p. IsForm p.form };
}

// The thread of stretches, where there is one.
fn one_thread(stretches: &[Stretch]) -> Option<ThreadName>
    ensures { IfSome result (λ thread. stretches.now ≡ stretch_of thread ∷ []) }
{
    match stretches {
        [only] if only.first == 0 => Some(only.thread),
        _ => None,
    }
}

/// So many picks, which columns with small numbers tell. The binds are taken out; after an error they are as before.
pub(crate) fn small_form(
    alloc: Global,
    count: u16,
    stretches: &[Stretch],
    names: CompactNames,
    namings: Vec<SmallNaming>,
    binds: &mut Vec<Bind>,
) -> Result<Form, AllocError>
    requires { AreColumns count (columns_of stretches.now (map wide namings.items) (compact_names names) binds.old.items) }
    ensures ok { IfOk result (IsFormOf count (columns_of stretches.now (map wide namings.items) (compact_names names) binds.old.items)) }
    ensures empty { OnOk result (binds.new.items ≡ []) }
    ensures err { OnErr result (binds.new.items ≡ binds.old.items) }
{
    if let Some(thread) = one_thread(stretches) {
        let binds = binds.split_off(0)?;
        return Ok(Form::One {
            count,
            site: thread.site,
            num: thread.num,
            names,
            namings,
            binds,
        });
    }
    let stretches = Vec::from_slice(alloc, stretches)?;
    let stretches = Box::new(alloc, stretches)?;
    let binds = binds.split_off(0)?;
    Ok(Form::Several {
        count,
        stretches,
        names,
        namings,
        binds,
    })
}

// So many picks, which columns with small numbers tell, in a vector.
fn small_picks(
    alloc: Global,
    stretches: &[Stretch],
    namings: &[SmallNaming],
    names: &CompactNames,
    binds: &[Bind],
    count: usize,
) -> Result<Vec<Pick>, AllocError>
    requires { AreColumns count (columns_of stretches.now (map wide namings.now) (compact_names names.now) binds.now) }
    ensures { IfOk result (λ picks. picks.items ≡ picks_below (columns_of stretches.now (map wide namings.now) (compact_names names.now) binds.now) count) }
{
    let namings = wide_namings(alloc, namings)?;
    let names = names.to_vec(alloc)?;
    let picks = picks_of(
        alloc,
        stretches,
        namings.as_slice(),
        names.as_slice(),
        binds,
        count,
    )?;
    Ok(picks)
}

impl CompactPicks {
    /// The picks of this form.
    pub(crate) fn from_form(form: Form) -> CompactPicks
        requires { IsForm form }
        ensures { result ≡ picks_in form }
    {
        CompactPicks { form }
    }

    /// The number of picks.
    pub fn len(&self) -> usize
        ensures { result ≡ length self.now }
    {
        match &self.form {
            Form::One { count, .. } => *count as usize,
            Form::Several { count, .. } => *count as usize,
            Form::Whole(list) => list.len(),
        }
    }

    /// The vector of these picks. It takes memory for each of them.
    pub fn to_vec(&self, alloc: Global) -> Result<Vec<Pick>, AllocError>
        ensures { IfOk result (λ picks. picks.items ≡ self.now) }
    {
        match &self.form {
            Form::One {
                count,
                site,
                num,
                names,
                namings,
                binds,
            } => {
                let only = Stretch {
                    first: 0,
                    thread: ThreadName {
                        site: *site,
                        num: *num,
                    },
                };
                let stretches = [only];
                let picks = small_picks(
                    alloc,
                    &stretches,
                    namings.as_slice(),
                    names,
                    binds.as_slice(),
                    *count as usize,
                )?;
                Ok(picks)
            }
            Form::Several {
                count,
                stretches,
                names,
                namings,
                binds,
            } => {
                let picks = small_picks(
                    alloc,
                    stretches.as_slice(),
                    namings.as_slice(),
                    names,
                    binds.as_slice(),
                    *count as usize,
                )?;
                Ok(picks)
            }
            Form::Whole(list) => list.to_vec(alloc),
        }
    }
}
