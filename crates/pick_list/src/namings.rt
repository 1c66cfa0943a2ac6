//! The picks that take fresh names, in a column.

ghost use Rattle.std.specs.Prelude.{◌≡◌, ◌+◌, ◌≤◌, [], ◌++◌, ◌∷◌, List, length, map, reverse, take, IfOk, IfSome, OnOk, OnErr};
ghost use Rattle.tree_node.specs.declared.names.Name.{Name as Named};
ghost use Rattle.pick_list.specs.Columns.{AreNamings, IsNamingBefore};
ghost use Rattle.pick_list.specs.Compact.{wide};
ghost use Rattle.pick_list.specs.Namings.{HasRoom, namings_in, widened};

use crate::columns::{Naming, SmallNaming};
use std::alloc::{AllocError, Global};

/// A naming whose numbers have 32 bits, in half the memory.
#[derive(Clone, Copy)]
pub struct ShortNaming {
    pub pick: u32,
    pub first: u32,
}

/// The namings of picks in their order (`namings_in`). One takes 8 bytes, up to the first whose numbers have more than 32 bits.
#[derive(Drop)]
pub struct NamingColumn {
    pub short: Vec<ShortNaming>,
    pub long: Vec<Naming>,
}

impl Naming {
    // The naming in half the memory, where its numbers have 32 bits.
    fn short(self) -> Option<ShortNaming>
        ensures { IfSome result (λ naming. widened naming ≡ self) }
    {
        if self.pick > 4294967295 || self.first > 4294967295 {
            return None;
        }
        Some(ShortNaming {
            pick: self.pick as u32,
            first: self.first as u32,
        })
    }
}

impl ShortNaming {
    // The naming as others are kept.
    fn widened(self) -> Naming
        ensures { result ≡ widened self }
    {
        Naming {
            pick: self.pick as usize,
            first: self.first as usize,
        }
    }

    // The naming in still less memory, where its numbers are small.
    fn small(self) -> Option<SmallNaming>
        ensures { IfSome result (λ naming. wide naming ≡ widened self) }
    {
        if self.pick > 65535 || self.first > 65535 {
            return None;
        }
        Some(SmallNaming {
            pick: self.pick as u16,
            first: self.first as u16,
        })
    }
}

impl NamingColumn {
    /// No namings. It takes no memory.
    pub fn new(alloc: Global) -> NamingColumn
        ensures { namings_in result ≡ [] }
    {
        NamingColumn {
            short: Vec::new(alloc),
            long: Vec::new(alloc),
        }
    }

    /// Makes room for one more.
    pub fn reserve(&mut self) -> Result<(), AllocError>
        ensures same { namings_in self.new ≡ namings_in self.old }
        ensures ok { OnOk result (HasRoom self.new) }
    {
        self.short.reserve(1)?;
        self.long.reserve(1)?;
        Ok(())
    }

    /// A naming behind the others, where there is room for one.
    pub fn push_reserved(&mut self, naming: Naming)
        requires { HasRoom self.old }
        ensures { namings_in self.new ≡ namings_in self.old ++ naming ∷ [] }
    {
        if self.long.is_empty() {
            if let Some(short) = naming.short() {
                self.short.push_reserved(short);
                return;
            }
        }
        self.long.push_reserved(naming);
    }

    /// Takes the last naming away where it is of a pick, and tells how many of so many names are those of the picks before.
    pub fn cut_to(&mut self, most: usize, pick: usize) -> usize
        requires { AreNamings (pick + 1) most (reverse (namings_in self.old)) }
        ensures within { result ≤ most }
        ensures before { (names : List Named) → length names ≡ most → IsNamingBefore pick names (reverse (namings_in self.old)) (take result names) (reverse (namings_in self.new)) }
    {
        if let Some(last) = self.long.pop() {
            if last.pick == pick {
                return last.first;
            }
            self.long.push_reserved(last);
            return most;
        }
        if let Some(last) = self.short.pop() {
            let wide = last.widened();
            if wide.pick == pick {
                return wide.first;
            }
            self.short.push_reserved(last);
        }
        most
    }

    /// No namings any more. The memory is kept.
    pub fn clear(&mut self)
        ensures { namings_in self.new ≡ [] }
    {
        self.short.clear();
        self.long.clear();
    }

    /// The same namings, in memory of just their length.
    pub fn copy(&self, alloc: Global) -> Result<NamingColumn, AllocError>
        ensures { IfOk result (λ c. namings_in c ≡ namings_in self.now) }
    {
        let short = Vec::from_slice(alloc, self.short.as_slice())?;
        let long = Vec::from_slice(alloc, self.long.as_slice())?;
        Ok(NamingColumn { short, long })
    }

    /// The namings in a vector.
    pub fn to_vec(&self, alloc: Global) -> Result<Vec<Naming>, AllocError>
        ensures { IfOk result (λ all. all.items ≡ namings_in self.now) }
    {
        let mut all = Vec::new(alloc);
        for naming in self.short.as_slice() {
            all.push(naming.widened())?;
        }
        let mut long = Vec::from_slice(alloc, self.long.as_slice())?;
        all.append(&mut long)?;
        Ok(all)
    }

    /// The namings in less memory, where the numbers of all of them are small.
    pub fn small(&self, alloc: Global) -> Result<Option<Vec<SmallNaming>>, AllocError>
        ensures { IfOk result (λ some. IfSome some (λ small. map wide small.items ≡ namings_in self.now)) }
    {
        if !self.long.is_empty() {
            return Ok(None);
        }
        let mut small = Vec::with_capacity(alloc, self.short.len())?;
        for naming in self.short.as_slice() {
            match naming.small() {
                None => return Ok(None),
                Some(next) => small.push_reserved(next),
            }
        }
        Ok(Some(small))
    }
}
