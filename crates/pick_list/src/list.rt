//! Lists of picks.

ghost use Rattle.std.specs.Prelude.{◌≡◌, ◌<◌, ◌-◌, ◌^◌, ◌++◌, ◌∷◌, [], None, IfOk, OnOk, OnErr, length, map, take};
ghost use Rattle.tree_node.specs.declared.names.Name.TheVariants as named;
ghost use Rattle.pick_list.specs.Binds.{binds_of, equation_of};
ghost use Rattle.pick_list.specs.Columns.{AreColumns, columns_of, picks_below};
ghost use Rattle.pick_list.specs.Compact.{IsFormOf};
ghost use Rattle.pick_list.specs.Namings.{namings_in};
ghost use Rattle.pick_list.specs.Tells.{in_a_row, plain, tell_picks};
ghost use Rattle.pick_list.specs.Names.{row_of};

use crate::columns::{
    Bind, Naming, Stretch, add_stretch, binds_before, picks_of, put, stretches_before,
};
use crate::compact::{CompactPicks, Form, small_form};
use crate::names::NameColumn;
use crate::namings::NamingColumn;
use std::alloc::{AllocError, Global};
use std::marker::Model;
use tree_node::{Name, Pick, Term, ThreadName, VarName};

// The most picks of a list.
const MOST: usize = isize::MAX as usize;

/// The picks of a run in the order of its steps, which contracts see as a list. They stand in columns: the stretches of
/// picks of one thread, the namings, the names of all picks, and the binds. A pick of the thread of the one before it that takes
/// no name and adds no equation takes no memory.
#[derive(Drop)]
pub struct PickList {
    stretches: Vec<Stretch>,
    namings: NamingColumn,
    names: NameColumn,
    binds: Vec<Bind>,
    count: usize,
}

impl Model for PickList {
    ghost use Rattle.std.specs.Prelude.{◌<◌, ◌^◌, List};
    ghost use Rattle.tree_node.specs.declared.pick.Pick.{Pick};
    ghost use Rattle.pick_list.specs.Columns.{AreColumns, columns_of, picks_below};
    ghost use Rattle.pick_list.specs.Namings.{namings_in};

    ghost Value = { List Pick };

    ghost view = { λ s. picks_below (columns_of s.stretches.items (namings_in s.namings) s.names s.binds.items) s.count };

    ghost invariant = { λ s. AreColumns s.count (columns_of s.stretches.items (namings_in s.namings) s.names s.binds.items) × (s.count < 2 ^ 63) };
}

// So many picks, which columns tell, as a list of their own. The binds are taken out; after an error they are as before.
#[inline(never)]
fn whole_list(
    alloc: Global,
    stretches: &[Stretch],
    namings: &NamingColumn,
    names: &NameColumn,
    binds: &mut Vec<Bind>,
    count: usize,
) -> Result<Box<PickList>, AllocError>
    requires columns { AreColumns count (columns_of stretches.now (namings_in namings.now) names.now binds.old.items) }
    requires few { count < 2 ^ 63 }
    ensures ok { IfOk result (λ l. l.value ≡ picks_below (columns_of stretches.now (namings_in namings.now) names.now binds.old.items) count) }
    ensures empty { OnOk result (binds.new.items ≡ []) }
    ensures err { OnErr result (binds.new.items ≡ binds.old.items) }
{
    let mut list = Box::new(alloc, PickList::new(alloc))?;
    let stretches = Vec::from_slice(alloc, stretches)?;
    let namings = namings.copy(alloc)?;
    let names = names.copy(alloc)?;
    let binds = binds.split_off(0)?;
    *list = PickList {
        stretches,
        namings,
        names,
        binds,
        count,
    };
    Ok(list)
}

// How so many picks are kept that columns tell. The binds are taken out; after an error they are as before.
fn form_of(
    alloc: Global,
    stretches: &[Stretch],
    namings: &NamingColumn,
    names: &NameColumn,
    binds: &mut Vec<Bind>,
    count: usize,
) -> Result<Form, AllocError>
    requires columns { AreColumns count (columns_of stretches.now (namings_in namings.now) names.now binds.old.items) }
    requires few { count < 2 ^ 63 }
    ensures ok { IfOk result (IsFormOf count (columns_of stretches.now (namings_in namings.now) names.now binds.old.items)) }
    ensures empty { OnOk result (binds.new.items ≡ []) }
    ensures err { OnErr result (binds.new.items ≡ binds.old.items) }
{
    if count <= 65535 {
        if let Some(small) = namings.small(alloc)? {
            let names = names.compact(alloc)?;
            let form = small_form(alloc, count as u16, stretches, names, small, binds)?;
            return Ok(form);
        }
    }
    let list = whole_list(alloc, stretches, namings, names, binds, count)?;
    Ok(Form::Whole(list))
}

impl PickList {
    /// No picks. It takes no memory.
    pub fn new(alloc: Global) -> PickList
        ensures { result ≡ [] }
    {
        PickList {
            stretches: Vec::new(alloc),
            namings: NamingColumn::new(alloc),
            names: NameColumn::new(alloc),
            binds: Vec::new(alloc),
            count: 0,
        }
    }

    /// Takes all picks out, in as little memory as they need. The list has none then, and keeps its memory for others. After an error it is as
    /// before.
    #[tactic(auto, using(crate::proofs::ColumnLemmas::no_columns))]
    pub fn take_all(&mut self, alloc: Global) -> Result<CompactPicks, AllocError>
        ensures ok { IfOk result (λ l. l ≡ self.old) }
        ensures empty { OnOk result (self.new ≡ []) }
        ensures err { OnErr result (self.new ≡ self.old) }
    {
        let form = form_of(
            alloc,
            self.stretches.as_slice(),
            &self.namings,
            &self.names,
            &mut self.binds,
            self.count,
        )?;
        self.stretches.clear();
        self.namings.clear();
        self.names.clear();
        self.count = 0;
        Ok(CompactPicks::from_form(form))
    }

    /// The number of picks.
    pub fn len(&self) -> usize
        ensures { result ≡ length self.now }
    {
        self.count
    }

    /// That a list has less than 2^63 picks, as a vector has. It does nothing: a caller learns the fact.
    pub fn is_short(&self)
        ensures { length self.now < 2 ^ 63 }
    {
        let _ = &self.count;
    }

    /// The equations that the picks add, in order.
    pub fn binds(&self) -> &[Bind]
        ensures { map equation_of result.now ≡ binds_of self.now }
    {
        self.binds.as_slice()
    }

    /// A pick behind the others that adds no equation.
    pub fn push_plain(&mut self, thread: ThreadName, fresh: &[Name]) -> Result<(), AllocError>
        ensures ok { OnOk result (self.new ≡ self.old ++ record { thread = thread; fresh = fresh.now; bind = None } ∷ []) }
        ensures err { OnErr result (self.new ≡ self.old) }
    {
        if self.count >= MOST {
            return Err(AllocError);
        }
        put(
            &mut self.stretches,
            &mut self.namings,
            &mut self.names,
            self.count,
            thread,
            fresh,
        )?;
        self.count += 1;
        Ok(())
    }

    /// A pick behind the others that takes so many variables, whose numbers count up from this one's, and adds no equation.
    pub fn push_row(
        &mut self,
        thread: ThreadName,
        first: VarName,
        count: usize,
    ) -> Result<(), AllocError>
        ensures ok { OnOk result (self.new ≡ self.old ++ record { thread = thread; fresh = row_of (named.Var first) count; bind = None } ∷ []) }
        ensures err { OnErr result (self.new ≡ self.old) }
    {
        if self.count >= MOST {
            return Err(AllocError);
        }
        let pick = self.count;
        let place = self.names.len();
        self.stretches.reserve(1)?;
        self.namings.reserve()?;
        self.names.push_row(first, count)?;
        self.namings.push_reserved(Naming { pick, first: place });
        add_stretch(&mut self.stretches, pick, thread);
        self.count += 1;
        Ok(())
    }

    /// A pick behind the others that adds an equation.
    pub fn push_bind(
        &mut self,
        thread: ThreadName,
        fresh: &[Name],
        var: VarName,
        term: Term,
    ) -> Result<(), AllocError>
        ensures ok { OnOk result (self.new ≡ self.old ++ record { thread = thread; fresh = fresh.now; bind = Some (var, term) } ∷ []) }
        ensures err { OnErr result (self.new ≡ self.old) }
    {
        if self.count >= MOST {
            return Err(AllocError);
        }
        self.binds.reserve(1)?;
        put(
            &mut self.stretches,
            &mut self.namings,
            &mut self.names,
            self.count,
            thread,
            fresh,
        )?;
        self.binds.push_reserved(Bind {
            pick: self.count,
            var,
            term,
        });
        self.count += 1;
        Ok(())
    }

    /// So many picks behind the others that take no names and add no equations. It takes one step, however many they are.
    #[inline(always)]
    pub fn push_plains(&mut self, thread: ThreadName, count: usize) -> Result<(), AllocError>
        ensures ok { OnOk result (self.new ≡ self.old ++ in_a_row count (plain thread)) }
        ensures err { OnErr result (self.new ≡ self.old) }
    {
        if count == 0 {
            return Ok(());
        }
        if count > MOST - self.count {
            return Err(AllocError);
        }
        put(
            &mut self.stretches,
            &mut self.namings,
            &mut self.names,
            self.count,
            thread,
            &[],
        )?;
        self.count += count;
        Ok(())
    }

    /// The picks of a block that binds and then is over behind the others: one that adds the equation, and two plain ones.
    pub fn push_tell(
        &mut self,
        thread: ThreadName,
        var: VarName,
        term: Term,
    ) -> Result<(), AllocError>
        ensures ok { OnOk result (self.new ≡ self.old ++ tell_picks thread var term) }
        ensures err { OnErr result (self.new ≡ self.old) }
    {
        if self.count > MOST - 3 {
            return Err(AllocError);
        }
        let pick = self.count;
        self.binds.reserve(1)?;
        put(
            &mut self.stretches,
            &mut self.namings,
            &mut self.names,
            pick,
            thread,
            &[],
        )?;
        self.binds.push_reserved(Bind { pick, var, term });
        self.count += 3;
        Ok(())
    }

    /// A pick behind the others.
    pub fn push(&mut self, pick: Pick) -> Result<(), AllocError>
        ensures ok { OnOk result (self.new ≡ self.old ++ pick ∷ []) }
        ensures err { OnErr result (self.new ≡ self.old) }
    {
        let Pick {
            thread,
            fresh,
            bind,
        } = pick;
        match bind {
            None => self.push_plain(thread, fresh.as_slice()),
            Some((var, term)) => self.push_bind(thread, fresh.as_slice(), var, term),
        }
    }

    /// Takes the last pick away.
    pub fn drop_last(&mut self)
        requires { 0 < length self.old }
        ensures { self.new ≡ take (length self.old - 1) self.old }
    {
        let last = self.count - 1;
        let stretches = stretches_before(self.stretches.as_slice(), last);
        let binds = binds_before(self.binds.as_slice(), last);
        self.stretches.truncate(stretches);
        let names = self.namings.cut_to(self.names.len(), last);
        self.names.truncate(names);
        self.binds.truncate(binds);
        self.count = last;
    }

    /// The vector of these picks. It takes memory for each of them.
    pub fn to_vec(&self, alloc: Global) -> Result<Vec<Pick>, AllocError>
        ensures { IfOk result (λ picks. picks.items ≡ self.now) }
    {
        let namings = self.namings.to_vec(alloc)?;
        let names = self.names.to_vec(alloc)?;
        let picks = picks_of(
            alloc,
            self.stretches.as_slice(),
            namings.as_slice(),
            names.as_slice(),
            self.binds.as_slice(),
            self.count,
        )?;
        Ok(picks)
    }
}
