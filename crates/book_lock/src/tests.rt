//! Two threads enter one lock many times each.

ghost use Rattle.std.specs.Prelude.{◌≡◌, ◌∷◌, [], length, MatchResult};
ghost use Rattle.book_lock.specs.Rule.{IsLawfulChange};
ghost use Rattle.book_lock.specs.Seats.{lock_id, IsOutsideOf};
ghost use Rattle.book_lock.specs.Ledger.{turns_alone};

use super::*;
use site_message::{Journal, Lines, Picks, SentList, Story, Turn, Units};
use std::alloc::{AllocError, Global};
use std::sync::Wait;
use std::test::Fail;
use std::thread::{Threads, join};

// The turns of two sites.
struct Ledger {
    turns: Journal,
}

impl Story for Ledger {
    ghost sight = { λ l. turns_alone l.turns };
}

impl Ledger {
    // Adds a turn, if there is memory.
    fn add(&mut self, turn: Turn) -> bool
        ensures { IsLawfulChange turn.site (turns_alone self.old.turns) (turns_alone self.new.turns) }
    {
        self.turns.push(turn).is_ok()
    }
}

// An empty turn of the site.
fn turn(alloc: Global, site: u32, steps: u64) -> Turn
    ensures { result.site ≡ site }
{
    Turn {
        site,
        delivered: None,
        units: Units::new(alloc),
        picks: Picks::new(),
        sent: SentList::new(alloc),
        lines: Lines::new(alloc),
        idle: true,
        ended: 0,
        waiting: 0,
        steps,
    }
}

// Enters, adds a turn of the seat's site, and leaves.
fn visit<R: Wait>(
    rt: &R,
    alloc: Global,
    lock: &CountedLock<Ledger>,
    seat: &mut SiteSeat,
    steps: u64,
)
    requires { IsOutsideOf (lock_id lock.now) seat.old }
    ensures { IsOutsideOf (lock_id lock.now) seat.new × (seat.new.site ≡ seat.old.site) }
{
    let mut held = lock.enter(rt, seat);
    held.value.add(turn(alloc, seat.site(), steps));
    lock.leave(seat, held);
}

// So many visits, each with the number of those before it.
fn visits<R: Wait>(
    rt: &R,
    alloc: Global,
    lock: &CountedLock<Ledger>,
    mut seat: SiteSeat,
    count: u64,
) -> SiteSeat
    requires { IsOutsideOf (lock_id lock.now) seat }
    ensures { IsOutsideOf (lock_id lock.now) result × (result.site ≡ seat.site) }
{
    for steps in 0..count {
        visit(rt, alloc, lock, &mut seat, steps);
    }
    seat
}

// Two seats on two threads.
fn both<R: Threads + Wait + Sync>(
    rt: &R,
    alloc: Global,
    lock: &CountedLock<Ledger>,
    first: SiteSeat,
    second: SiteSeat,
    count: u64,
) -> (SiteSeat, SiteSeat)
    requires { IsOutsideOf (lock_id lock.now) first × IsOutsideOf (lock_id lock.now) second }
    ensures { IsOutsideOf (lock_id lock.now) result.0 × IsOutsideOf (lock_id lock.now) result.1 }
{
    join(
        rt,
        move || -> SiteSeat
            requires { IsOutsideOf (lock_id lock.now) first }
            ensures { IsOutsideOf (lock_id lock.entry.now) result }
        { visits(rt, alloc, lock, first, count) },
        move || -> SiteSeat
            requires { IsOutsideOf (lock_id lock.now) second }
            ensures { IsOutsideOf (lock_id lock.entry.now) result }
        { visits(rt, alloc, lock, second, count) },
    )
}

// What two threads leave that make so many visits each.
fn filled<R: Threads + Wait + Sync>(
    rt: &R,
    alloc: Global,
    count: u64,
) -> Result<Ledger, AllocError> {
    let empty = Ledger {
        turns: Journal::new(alloc),
    };
    match CountedLock::begin(alloc, empty, 2) {
        Ok((lock, mut seats)) => {
            let second = seats.pop().unwrap();
            let first = seats.pop().unwrap();
            let (first, second) = both(rt, alloc, &lock, first, second, count);
            seats.push_reserved(first);
            seats.push_reserved(second);
            Ok(lock.finish(seats))
        }
        Err((empty, _)) => {
            let Ledger { turns } = empty;
            turns.forget();
            Err(AllocError)
        }
    }
}

// How many turns there are, and how many each of the two sites has, if those are numbered from 0 on. They are given up.
fn counts(ledger: Ledger) -> (usize, Option<u64>, Option<u64>) {
    let Ledger { turns } = ledger;
    let list = turns.oldest_first();
    let found = (list.len(), numbered(list, 1), numbered(list, 2));
    turns.forget();
    found
}

// How many turns the site has, if they are numbered from 0 on.
fn numbered(turns: &[Turn], site: u32) -> Option<u64> {
    let mut next = 0u64;
    for turn in turns {
        if turn.site == site {
            if turn.steps != next {
                return None;
            }
            next = next.wrapping_add(1);
        }
    }
    Some(next)
}

#[test]
fn two_threads_enter_ten_times_each(rt: HostRuntime) -> Result<(), Fail> {
    let (all, first, second) = counts(filled(&rt, rt.alloc(), 10)?);
    assert_eq!(rt; all, 20);
    assert_eq!(rt; first, Some(10));
    assert_eq!(rt; second, Some(10));
    Ok(())
}

#[test]
fn two_threads_enter_many_times_each(rt: HostRuntime) -> Result<(), Fail> {
    let (_, first, second) = counts(filled(&rt, rt.alloc(), 100_000)?);
    assert_eq!(rt; first, Some(100_000));
    assert_eq!(rt; second, Some(100_000));
    Ok(())
}
