//! The calls of the lock.

ghost use Rattle.std.specs.Prelude.{◌≡◌, ℕ, ◌<◌, ◌≤◌, ◌+◌, ◌%◌, ◌^◌, [], ◌∷◌, ◌++◌, length, false, IfOk, IfErr, MatchResult};
ghost use Rattle.book_lock.specs.Rule.{AreInAgreement, IsLawfulChange, Each, part, view, outside, parts_from};
ghost use Rattle.book_lock.specs.Seats.{lock_id, lock_seats, last_seen, seat_part, sight_taken, IsOutsideOf, IsSeatOutside, IsSeatInside, IsHeldBy, HasTurn, HasNoTicket, HasTicket, my_part, AreNewSeats};

use super::{CountedLock, Held, SiteSeat};
use crate::rule::{Deal, Draw, Gather, Look, Opening, Pass};
use crate::view::View;
use atomic_table::{Badge, Refused, Seat, Table};
use site_message::{Outside, Story};
use std::alloc::{AllocError, Global};
use std::hint::spin_loop;
use std::mem;
use std::snapshot::Snapshot;
use std::sync::Wait;

// The words of the table.
const TICKET: usize = 0;

const SERVING: usize = 1;

// How often the next in line looks before it parks.
const LOOKS: u32 = 3000;

impl Outside for SiteSeat {
    ghost is_outside = { IsSeatOutside };
}

impl SiteSeat {
    /// The site whose seat it is.
    pub fn site(&self) -> u32
        ensures { result ≡ self.now.site }
    {
        self.site
    }
}

impl<B: Story> CountedLock<B> {
    /// Waits for its turn, and takes the value out.
    pub fn enter<R: Wait>(&self, rt: &R, seat: &mut SiteSeat) -> Held<B>
        requires { IsOutsideOf (lock_id self.now) seat.old }
        ensures held { IsHeldBy (lock_id self.now) seat.old.site result }
        ensures inside { IsSeatInside seat.new × (seat.new.site ≡ seat.old.site) }
        ensures taken { sight_taken result ≡ B.sight result.value }
        ensures agrees { AreInAgreement seat.old.site (B.sight result.value) (last_seen seat.old) }
    {
        let badge = mem::replace(&mut seat.badge, Badge::blank());
        let mut inner = badge.into_seat::<Option<B>>();
        let ticket = self.draw(&mut inner);
        let mut looks = 0u32;
        let mut on_board = false;
        for _ in rt.forever() {
            match self.look(&mut inner, ticket) {
                Ok(value) => {
                    if on_board {
                        self.board.clear(ticket);
                    }
                    return Held { value, seat: inner };
                }
                // The next in line looks again for a while, since the others are soon out.
                Err(serving) if looks < LOOKS && ticket.wrapping_sub(serving) <= 3 => {
                    looks += 1;
                    spin_loop();
                }
                // It looks once more after it has written, so it sees the turn passed or is woken.
                Err(_) if !on_board => {
                    self.board.write(ticket, seat.site);
                    on_board = true;
                }
                Err(_) => seat.parker.park(rt),
            }
        }
        unreachable!()
    }

    // Draws a ticket.
    fn draw(&self, inner: &mut Seat<Option<B>, View>) -> u64
        requires own { inner.old.table_id ≡ self.now.table.shared.table_id }
        requires idle { HasNoTicket inner.old.me }
        ensures own { inner.new.table_id ≡ inner.old.table_id }
        ensures waits { HasTicket result inner.new.me × (my_part inner.new.me ≡ my_part inner.old.me) }
    {
        self.table.shared.fetch_add::<Draw>(inner, TICKET, 1)
    }

    // Takes the value out where the ticket is served; else the one that is.
    fn look(&self, inner: &mut Seat<Option<B>, View>, ticket: u64) -> Result<B, u64>
        requires own { inner.old.table_id ≡ self.now.table.shared.table_id }
        requires waits { HasTicket ticket inner.old.me }
        ensures own { inner.new.table_id ≡ inner.old.table_id }
        ensures value { MatchResult result (λ b. AreInAgreement (my_part inner.old.me).site (B.sight b) (my_part inner.old.me).seen × HasTurn inner.new.me (part (my_part inner.old.me).site (B.sight b))) (λ n. inner.new.me ≡ inner.old.me) }
    {
        let serving = self.table.shared.load::<Look<B>>(inner, SERVING);
        if serving != ticket {
            return Err(serving);
        }
        Ok(self.table.shared.exchange(inner, 0, None).unwrap())
    }

    /// Puts the value home, and passes the turn.
    pub fn leave(&self, seat: &mut SiteSeat, held: Held<B>)
        requires held { IsHeldBy (lock_id self.now) seat.old.site held }
        requires inside { IsSeatInside seat.old }
        requires moves { IsLawfulChange seat.old.site (sight_taken held) (B.sight held.value) }
        ensures seat { IsOutsideOf (lock_id self.now) seat.new × (seat.new.site ≡ seat.old.site) }
        ensures seen { last_seen seat.new ≡ B.sight held.value }
    {
        let Held {
            value,
            seat: mut inner,
        } = held;
        match self.table.shared.exchange(&mut inner, 0, Some(value)) {
            None => {}
            Some(_) => unreachable!(),
        }
        let served = self
            .table
            .shared
            .fetch_add::<Pass<B>>(&mut inner, SERVING, 1);
        seat.badge = inner.into_badge();
        self.board.wake(served.wrapping_add(1));
    }
}
