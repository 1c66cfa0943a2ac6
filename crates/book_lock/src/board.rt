//! How a seat that waits for its turn sleeps, and how the next in line alone is woken. Nothing here is a step of the
//! lock's rule, and no promise rests on it: a seat that is woken for nothing looks again.

ghost use Rattle.std.specs.Prelude.{◌≡◌, ◌<◌, ◌%◌, length, IfOk};

use crossbeam_utils::sync::{Parker, Unparker};
use std::alloc::{AllocError, Global};
use std::sync::atomic::{AtomicU32, Ordering};

/// At the place of a ticket, modulo the number of places, stands the site whose seat sleeps with it, or 0. There are as
/// many places as seats, and each seat has one ticket at most, so those that wait have places of their own.
#[derive(Drop)]
pub(crate) struct Board {
    places: Vec<AtomicU32>,
    sleepers: Vec<Unparker>,
}

impl Board {
    // A board for so many seats, and their parkers, that of site 1 last.
    pub(crate) fn new(alloc: Global, seats: u32) -> Result<(Board, Vec<Parker>), AllocError>
        ensures { IfOk result (λ r. length r.1.items ≡ seats) }
    {
        let mut places = Vec::new(alloc);
        let mut sleepers = Vec::new(alloc);
        let mut parkers = Vec::new(alloc);
        for _ in 0..seats {
            let parker = Parker::new(alloc)?;
            sleepers.push(parker.unparker().clone()?)?;
            parkers.push(parker)?;
            places.push(AtomicU32::new(0))?;
        }
        parkers.reverse();
        Ok((Board { places, sleepers }, parkers))
    }

    fn place(&self, ticket: u64) -> Option<&AtomicU32> {
        let count = self.places.len();
        if count == 0 {
            return None;
        }
        self.places.get(place_of(ticket, count))
    }

    // The seat of the site is about to sleep with this ticket.
    pub(crate) fn write(&self, ticket: u64, site: u32) {
        if let Some(place) = self.place(ticket) {
            place.store(site, Ordering::SeqCst);
        }
    }

    // The seat with this ticket is inside.
    pub(crate) fn clear(&self, ticket: u64) {
        self.write(ticket, 0);
    }

    // Wakes the seat that sleeps with this ticket, if one does.
    pub(crate) fn wake(&self, ticket: u64) {
        let Some(place) = self.place(ticket) else {
            return;
        };
        let site = place.load(Ordering::SeqCst);
        if site > 0 {
            if let Some(sleeper) = self.sleepers.get(site as usize - 1) {
                sleeper.unpark();
            }
        }
    }
}

// The place of a ticket, of so many.
fn place_of(ticket: u64, places: usize) -> usize
    requires { 0 < places }
    ensures value { result ≡ ticket % places }
    ensures range { result < places }
{
    (ticket % places as u64) as usize
}
