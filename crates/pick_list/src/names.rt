//! The names of all picks, in a column.

ghost use Rattle.std.specs.Prelude.{◌≡◌, ◌≤◌, ◌<◌, ◌+◌, ◌^◌, [], ◌++◌, ◌∷◌, List, length, reverse, take, IsTrue, IfOk, IfSome, OnOk, OnErr, vec_len, vec_capacity};
ghost use Rattle.tree_node.specs.declared.names.Name.{Name as Named};
ghost use Rattle.tree_node.specs.declared.names.Name.TheVariants as named;
ghost use Rattle.tree_node.specs.Each.{Each};
ghost use Rattle.pick_list.specs.Names.{name_after, row_of, names_in, IsRow, IsRun, IsVarAfter, IsNameAfter, Follows, IsCutTo};
ghost use Rattle.pick_list.specs.Compact.{compact_names};

use std::alloc::{AllocError, Global};
use std::marker::Model;
use tree_node::{Name, VarName};

// The most names of a column.
const MOST: usize = isize::MAX as usize;

/// Names that follow one another: so many variables of one site whose numbers count up from the first one's, or one name of another
/// kind.
#[derive(Clone, Copy)]
pub struct NameRun {
    pub first: Name,
    pub count: usize,
}

/// Names in order, which contracts see as a list. Variables whose numbers count up, as those that one site makes do, stand in a run, and
/// take no memory beside their first.
#[derive(Drop)]
pub struct NameColumn {
    runs: Vec<NameRun>,
    count: usize,
}

impl Model for NameColumn {
    ghost use Rattle.std.specs.Prelude.{◌≡◌, ◌<◌, ◌^◌, List, length, reverse};
    ghost use Rattle.tree_node.specs.declared.names.Name.{Name};
    ghost use Rattle.tree_node.specs.Each.{Each};
    ghost use Rattle.pick_list.specs.Names.{names_in, IsRun};

    ghost Value = { List Name };

    ghost view = { λ c. names_in (reverse c.runs.items) };

    ghost invariant = { λ c. Each IsRun (reverse c.runs.items) × (c.count ≡ length (names_in (reverse c.runs.items))) × (c.count < 2 ^ 63) };
}

/// The names of a column to which none is added, in 16 bytes: variables whose numbers count up take no memory, where they are few. The
/// fields of a row stand in the variant itself, where they take less.
#[derive(Drop)]
pub enum CompactNames {
    Row { count: u16, site: u32, num: u64 },
    Column(Box<NameColumn>),
}

// Whether a variable is the one so many behind another one.
fn counts_to(first: VarName, count: usize, var: VarName) -> bool
    ensures { IsTrue result → IsVarAfter first count var }
{
    if first.site != var.site || var.num < first.num {
        return false;
    }
    var.num - first.num == count as u64
}

// Whether a name is the one so many behind the first of a run.
fn is_after(run: NameRun, name: Name) -> bool
    ensures { IsTrue result → IsNameAfter run.first run.count name }
{
    match (run.first, name) {
        (Name::Var(first), Name::Var(var)) => counts_to(first, run.count, var),
        _ => false,
    }
}

// Whether a name follows those of the last run.
fn follows(runs: &[NameRun], name: Name) -> bool
    ensures { IsTrue result → Follows (reverse runs.now) name }
{
    match runs {
        [] => false,
        [.., last] => is_after(*last, name),
    }
}

// So many names from one on behind those of runs, where there is room for a run.
fn put(runs: &mut Vec<NameRun>, first: Name, count: usize)
    requires room { vec_len runs.old < vec_capacity runs.old }
    requires runs { Each IsRun (reverse runs.old.items) }
    requires run { IsRow first count }
    requires few { length (names_in (reverse runs.old.items)) + count < 2 ^ 63 }
    ensures names { names_in (reverse runs.new.items) ≡ names_in (reverse runs.old.items) ++ row_of first count }
    ensures runs { Each IsRun (reverse runs.new.items) }
    ensures len { vec_len runs.new ≤ vec_len runs.old + 1 }
    ensures capacity { vec_capacity runs.new ≡ vec_capacity runs.old }
{
    if !follows(runs.as_slice(), first) {
        runs.push_reserved(NameRun { first, count });
        return;
    }
    match runs.pop() {
        None => unreachable!(),
        Some(last) => {
            let first = last.first;
            let count = last.count + count;
            runs.push_reserved(NameRun { first, count });
        }
    }
}

// Names behind those of runs, where there is room for so many runs.
fn put_all(runs: &mut Vec<NameRun>, names: &[Name])
    requires room { vec_len runs.old + length names.now ≤ vec_capacity runs.old }
    requires runs { Each IsRun (reverse runs.old.items) }
    requires few { length (names_in (reverse runs.old.items)) + length names.now < 2 ^ 63 }
    ensures names { names_in (reverse runs.new.items) ≡ names_in (reverse runs.old.items) ++ names.now }
    ensures runs { Each IsRun (reverse runs.new.items) }
{
    for name in names {
        put(runs, *name, 1);
    }
}

// The name so many behind the first of a run.
fn name_of(run: NameRun, place: usize) -> Name
    requires run { IsRun run }
    requires place { place < run.count }
    ensures { result ≡ name_after run.first place }
{
    match run.first {
        Name::Var(first) => Name::Var(VarName {
            site: first.site,
            num: first.num + place as u64,
        }),
        Name::Cell(_) => run.first,
        Name::Port(_) => run.first,
        Name::Proc(_) => run.first,
        Name::Thread(_) => run.first,
    }
}

// Puts the names of a run behind others.
fn push_run(names: &mut Vec<Name>, run: NameRun) -> Result<(), AllocError>
    requires { IsRun run }
    ensures { OnOk result (names.new.items ≡ names.old.items ++ row_of run.first run.count) }
{
    for place in 0..run.count {
        names.push(name_of(run, place))?;
    }
    Ok(())
}

// Takes the last so many names of runs away.
fn cut(runs: &mut Vec<NameRun>, over: usize)
    requires runs { Each IsRun (reverse runs.old.items) }
    requires within { over ≤ length (names_in (reverse runs.old.items)) }
    ensures names { IsCutTo (names_in (reverse runs.old.items)) (names_in (reverse runs.new.items)) over }
    ensures runs { Each IsRun (reverse runs.new.items) }
{
    let mut left = over;
    'runs: while left > 0 {
        match runs.pop() {
            None => unreachable!(),
            Some(last) => {
                if last.count > left {
                    let first = last.first;
                    let count = last.count - left;
                    runs.push_reserved(NameRun { first, count });
                    return;
                }
                left -= last.count;
            }
        }
    }
}

// The names of runs in less memory, where they are few variables whose numbers count up.
fn compact_row(runs: &[NameRun]) -> Option<CompactNames>
    ensures { IfSome result (λ names. compact_names names ≡ names_in (reverse runs.now)) }
{
    match runs {
        [] => Some(CompactNames::Row {
            count: 0,
            site: 0,
            num: 0,
        }),
        [run] => run.compact(),
        _ => None,
    }
}

impl NameRun {
    // The names of the run in less memory, where they are few variables.
    fn compact(self) -> Option<CompactNames>
        ensures { IfSome result (λ names. compact_names names ≡ row_of self.first self.count) }
    {
        match self.first {
            Name::Var(first) => {
                if self.count > 65535 {
                    return None;
                }
                Some(CompactNames::Row {
                    count: self.count as u16,
                    site: first.site,
                    num: first.num,
                })
            }
            Name::Cell(_) => None,
            Name::Port(_) => None,
            Name::Proc(_) => None,
            Name::Thread(_) => None,
        }
    }
}

impl CompactNames {
    /// The names in a vector.
    pub fn to_vec(&self, alloc: Global) -> Result<Vec<Name>, AllocError>
        ensures { IfOk result (λ v. v.items ≡ compact_names self.now) }
    {
        match self {
            CompactNames::Row { count, site, num } => {
                let first = VarName {
                    site: *site,
                    num: *num,
                };
                let mut column = NameColumn::new(alloc);
                column.push_row(first, *count as usize)?;
                column.to_vec(alloc)
            }
            CompactNames::Column(column) => column.to_vec(alloc),
        }
    }
}

impl NameColumn {
    /// No names. It takes no memory.
    pub fn new(alloc: Global) -> NameColumn
        ensures { result ≡ [] }
    {
        NameColumn {
            runs: Vec::new(alloc),
            count: 0,
        }
    }

    /// The number of names.
    pub fn len(&self) -> usize
        ensures value { result ≡ length self.now }
        ensures few { result < 2 ^ 63 }
    {
        self.count
    }

    /// Names behind the others, all of them or none.
    pub fn extend_from_slice(&mut self, names: &[Name]) -> Result<(), AllocError>
        ensures ok { OnOk result (self.new ≡ self.old ++ names.now) }
        ensures err { OnErr result (self.new ≡ self.old) }
    {
        if names.len() > MOST - self.count {
            return Err(AllocError);
        }
        self.runs.reserve(names.len())?;
        put_all(&mut self.runs, names);
        self.count += names.len();
        Ok(())
    }

    /// So many variables behind the others, whose numbers count up from this one's. It takes one step, however many they are. Numbers of
    /// more than 64 bits are refused as want of memory is.
    pub fn push_row(&mut self, first: VarName, count: usize) -> Result<(), AllocError>
        ensures ok { OnOk result (self.new ≡ self.old ++ row_of (named.Var first) count) }
        ensures err { OnErr result (self.new ≡ self.old) }
    {
        if count > MOST - self.count || count as u64 > u64::MAX - first.num {
            return Err(AllocError);
        }
        self.runs.reserve(1)?;
        put(&mut self.runs, Name::Var(first), count);
        self.count += count;
        Ok(())
    }

    /// The same names, in memory of just their length.
    pub fn copy(&self, alloc: Global) -> Result<NameColumn, AllocError>
        ensures { IfOk result (λ c. c ≡ self.now) }
    {
        let runs = Vec::from_slice(alloc, self.runs.as_slice())?;
        Ok(NameColumn {
            runs,
            count: self.count,
        })
    }

    /// The same names, in as little memory as they need.
    pub fn compact(&self, alloc: Global) -> Result<CompactNames, AllocError>
        ensures { IfOk result (λ names. compact_names names ≡ self.now) }
    {
        if let Some(names) = compact_row(self.runs.as_slice()) {
            return Ok(names);
        }
        let column = Box::new(alloc, self.copy(alloc)?)?;
        Ok(CompactNames::Column(column))
    }

    /// No names any more. The memory is kept.
    pub fn clear(&mut self)
        ensures { self.new ≡ [] }
    {
        self.runs.clear();
        self.count = 0;
    }

    /// The first so many names; the others are given up.
    pub fn truncate(&mut self, most: usize)
        requires { most ≤ length self.old }
        ensures { self.new ≡ take most self.old }
    {
        cut(&mut self.runs, self.count - most);
        self.count = most;
    }

    #[tactic(auto, using(crate::proofs::NameLemmas::names_more, crate::proofs::NameLemmas::run_at))]
    /// The names in a vector.
    pub fn to_vec(&self, alloc: Global) -> Result<Vec<Name>, AllocError>
        ensures { IfOk result (λ v. v.items ≡ self.now) }
    {
        let mut names = Vec::with_capacity(alloc, self.count)?;
        for run in self.runs.as_slice() {
            push_run(&mut names, *run)?;
        }
        Ok(names)
    }
}
