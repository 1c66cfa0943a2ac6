//! The manager of a cell.

ghost use Rattle.std.specs.Prelude.{◌≡◌};

use std::marker::Model;

/// Keeps the last site that asked for a cell's token, which contracts see as that site's number. It stands at the site
/// in the cell's name. Each asker is made the successor of the one before it, so that the askers form a chain.
#[derive(Drop)]
pub struct Manager {
    last: u32,
}

impl Model for Manager {
    ghost use Rattle.std.specs.Prelude.{ℕ};

    ghost Value = { ℕ };

    ghost view = { λ m. m.last };
}

/// What a manager tells: the site `to` is followed in the chain of askers by the site `next`.
#[derive(Clone, Copy, Debug, PartialEq, Eq)]
pub struct Forward {
    pub to: u32,
    pub next: u32,
}

impl Manager {
    /// The manager at a site that makes a cell. That site has the token first, and counts as its first asker.
    pub fn new(site: u32) -> Manager
        ensures last { result ≡ site }
    {
        Manager { last: site }
    }

    /// A site asks for the token: the one that asked before it has this site for its successor, and this one asked last.
    pub fn on_get(&mut self, site: u32) -> Forward
        ensures to { result.to ≡ self.old }
        ensures next { result.next ≡ site }
        ensures last { self.new ≡ site }
    {
        let to = self.last;
        self.last = site;
        Forward { to, next: site }
    }
}
