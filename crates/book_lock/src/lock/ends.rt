//! How a lock is made, and how it ends.

ghost use Rattle.std.specs.Prelude.{◌≡◌, ◌≢◌, ℕ, ◌<◌, ◌≤◌, ◌+◌, [], ◌∷◌, ◌++◌, map, length, None, Some, IfOk, IfErr, vec_len, vec_capacity};
ghost use Rattle.book_lock.specs.Rule.{AreInAgreement, Each, part, outside, parts_from};
ghost use Rattle.book_lock.specs.Seats.{lock_id, lock_seats, last_seen, seat_part, IsOutsideOf, HasNoTicket, my_part, AreNewSeats};

use super::{CountedLock, SiteSeat};
use crate::board::Board;
use crate::rule::{Deal, Gather, Opening};
use crate::view::View;
use atomic_table::{Refused, Seat, Table};
use crossbeam_utils::sync::Parker;
use site_message::Story;
use std::alloc::{AllocError, Global};
use std::snapshot::Snapshot;

impl<B: Story> CountedLock<B> {
    /// A lock round the value, and a seat for each site from 1 on.
    pub fn begin(
        alloc: Global,
        value: B,
        seats: u32,
    ) -> Result<(CountedLock<B>, Vec<SiteSeat>), (B, AllocError)>
        requires some { 0 < seats }
        requires new { (B.sight value).entries ≡ [] }
        ensures count { IfOk result (λ r. (length r.1.items ≡ seats) × (lock_seats r.0 ≡ seats)) }
        ensures new { IfOk result (λ r. AreNewSeats (lock_id r.0) 1 (B.sight value) r.1.items) }
        ensures given_back { IfErr result (λ e. e.0 ≡ value) }
    {
        let Ok(list) = Vec::with_capacity(alloc, seats as usize) else {
            return Err((value, AllocError));
        };
        let Ok((board, parkers)) = Board::new(alloc, seats) else {
            return Err((value, AllocError));
        };
        match open(alloc, value, seats, board) {
            Ok((lock, mut first)) => {
                let list = lock.deal(&mut first, list, parkers, seats);
                Ok((lock, list))
            }
            Err(value) => Err((value, AllocError)),
        }
    }

    // Gives each site its seat.
    fn deal(
        &self,
        first: &mut Seat<Option<B>, View>,
        mut list: Vec<SiteSeat>,
        mut parkers: Vec<Parker>,
        seats: u32,
    ) -> Vec<SiteSeat>
        requires own { first.old.table_id ≡ self.now.table.shared.table_id }
        requires parts { first.old.me ≡ (outside (parts_from seats 1 (my_part first.old.me).seen), []) }
        requires room { (list.items ≡ []) × (seats ≤ vec_capacity list) }
        requires parkers { length parkers.items ≡ seats }
        ensures length { length result.items ≡ seats }
        ensures new { AreNewSeats self.now.table.shared.table_id 1 (my_part first.old.me).seen result.items }
    {
        for k in 0..seats {
            let badge = self.table.shared.split_seat::<Deal>(first).into_badge();
            let parker = parkers.pop().unwrap();
            let site = k + 1;
            list.push_reserved(SiteSeat {
                site,
                badge,
                parker,
            });
        }
        list
    }

    /// Takes the value out of a lock that no seat has entered. It has all that each seat saw.
    pub fn finish(self, seats: Vec<SiteSeat>) -> B
        requires all { (length seats.items ≡ lock_seats self) × (0 < length seats.items) }
        requires outside { Each (IsOutsideOf (lock_id self)) seats.items }
        ensures { Each (λ s. AreInAgreement s.site (B.sight result) (last_seen s)) seats.items }
    {
        let all = self.gather(seats);
        let CountedLock { table, board: _ } = self;
        let mut closed = table.close_with(all);
        let value = closed.take(0).unwrap();
        closed.free();
        value
    }

    // Joins the seats.
    fn gather(&self, mut seats: Vec<SiteSeat>) -> Seat<Option<B>, View>
        requires some { 0 < length seats.items }
        requires outside { Each (IsOutsideOf (lock_id self.now)) seats.items }
        ensures own { result.table_id ≡ self.now.table.shared.table_id }
        ensures parts { result.me ≡ (outside (map seat_part seats.items), []) }
    {
        let last = seats.pop().unwrap();
        let SiteSeat {
            site: _,
            badge,
            parker: _,
        } = last;
        let mut all = badge.into_seat::<Option<B>>();
        while let Some(seat) = seats.pop() {
            let SiteSeat {
                site: _,
                badge,
                parker: _,
            } = seat;
            self.table
                .shared
                .join_seat::<Gather>(&mut all, badge.into_seat());
        }
        seats.destroy_empty();
        all
    }
}

// A table with the value at home, and the seat that has all parts.
fn open<B: Story>(
    alloc: Global,
    value: B,
    seats: u32,
    board: Board,
) -> Result<(CountedLock<B>, Seat<Option<B>, View>), B>
    ensures ok { IfOk result (λ r. (r.0.table.shared.key.seats ≡ seats) × (r.1.table_id ≡ r.0.table.shared.table_id) × (r.1.me ≡ (outside (parts_from seats 1 (B.sight value)), []))) }
    ensures err { IfErr result (λ e. e ≡ value) }
{
    let Ok(mut slots) = Vec::with_capacity(alloc, 1) else {
        return Err(value);
    };
    let about = Opening {
        seats,
        value: Snapshot::of(&value),
    };
    slots.push_reserved(Some(value));
    match Table::new(alloc, &[0, 0], slots, &about) {
        Ok((table, first)) => Ok((CountedLock { table, board }, first)),
        Err(Refused { mut slots }) => {
            let value = slots.pop().unwrap().unwrap();
            slots.destroy_empty();
            Err(value)
        }
    }
}
