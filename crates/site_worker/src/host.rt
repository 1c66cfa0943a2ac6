//! A site with its seat, and a visit.

ghost use Rattle.std.specs.Prelude.{◌≡◌, ◌≤◌, ◌-◌, ◌^◌, min, ℕ, false, Option, None, IfOk, IfSome};
ghost use Rattle.tree_node.specs.declared.limits.TheConstants.{MOST_SITES, MOST_STEPS, MOST_UNITS};
ghost use Rattle.atomic_table.specs.Seated.{TableId};
ghost use Rattle.book_lock.specs.Rule.{IsContinuation};
ghost use Rattle.book_lock.specs.Seats.{lock_id, last_seen};
ghost use Rattle.kernel_syntax.specs.Program.{IsProgram};
ghost use Rattle.message_book.specs.Book.{IsSiteOf};
ghost use Rattle.site_message.specs.declared.message.Msg.{Msg as AMsg};
ghost use Rattle.site_model.specs.Site.{initial_site, is_idle};
ghost use Rattle.site_core.specs.Site.{IsTurnMade};
ghost use Rattle.site_worker.specs.declared.host.Host.{Host};
ghost use Rattle.site_worker.specs.Host.{IsHost, IsHostOf, IsNewSeat, IsSpelledBy, HasMessage, HasSpelling, HasTurned, HasFailed, HasTriedTurn, program_of, sites_of, state_of, sight};
ghost use Rattle.site_worker.specs.declared.visited.Visited.TheVariants.{Over};
ghost use Rattle.site_worker.specs.Inside.{book_steps};
ghost use Rattle.site_worker.specs.Waking.{AreRecipients};
ghost use Rattle.site_worker.specs.Visit.{IsVisit, IsSameHost, IsFirstHalf, IsSecondHalf, IsGivenUp, HasBegun, IsNextHalf, IsNextVisit};

use crate::gate::Gate;
use crate::inside;
use crate::inside::{Fetched, NextVisit, PostOutcome};
use crate::visited::Visited;
use book_lock::{CountedLock, SiteSeat};
use message_book::{Book, SpelledTurn};
use site_core::Site;
use site_message::{Msg, NoSeat, Quantum, Reason, Sent, Turn};
use site_wire::sites_send_what_fits;
use std::alloc::{AllocError, Global};
use std::sync::Wait;
use tree_node::{MOST_SITES, MOST_UNITS};
use wire_form::{Bytes, WireFault, decode};

/// A site of a run with its seat: the site's number, the turns that it has begun, whether it was given up, and the sites
/// that its last turn sent to, the bit `k - 1` for the site `k`.
#[derive(Drop)]
pub struct Host<'a> {
    pub(crate) alloc: Global,
    pub(crate) site: Site<'a, SiteSeat>,
    pub(crate) number: u32,
    pub(crate) turns: u64,
    pub(crate) spent: bool,
    pub(crate) recipients: u64,
}

/// Visits the site once: takes the bytes of a message, and where there are some or the site is not idle, reads them, makes a turn
/// and spells what it sends, all outside the lock, and posts the turn.
pub fn visit<'a, G: Gate, R: Wait>(
    rt: &R,
    host: &mut Host<'a>,
    lock: &CountedLock<Book>,
    gate: &G,
) -> Visited
    requires { IsHost (lock_id lock.now) host.old }
    ensures host { IsHost (lock_id lock.now) host.new × IsSameHost host.old host.new }
    ensures visited { IsVisit host.old host.new result }
{
    host.recipients = 0;
    match host.fetch(rt, lock) {
        Fetched::Over(reason) => Visited::Over(reason),
        Fetched::Open(taken, limit) => host.end_visit(rt, lock, gate, taken, limit),
    }
}

impl<'a> Host<'a> {
    /// A new site and its new seat. Its visits take memory of the allocator.
    pub fn new(alloc: Global, site: Site<'a, NoSeat>, seat: SiteSeat) -> Host<'a>
        requires program { IsProgram site.program }
        requires most { site.sites ≤ MOST_SITES }
        requires site { site.state ≡ initial_site site.program site.sites seat.site }
        requires live { site.spent ≡ false }
        requires seat { (t : TableId) × IsNewSeat t site.sites seat }
        ensures host { (t : TableId) → IsNewSeat t site.entry.sites seat → IsHost t result }
        ensures of { IsHostOf site.entry.program (last_seen seat).fixed result }
        ensures number { result.number ≡ seat.site }
    {
        let number = seat.site();
        Host {
            alloc,
            site: site.seated(seat),
            number,
            turns: 0,
            spent: false,
            recipients: 0,
        }
    }

    /// The seat alone.
    pub fn into_seat(self) -> SiteSeat
        ensures { result ≡ self.entry.site.seat }
    {
        self.site.into_seat()
    }

    // The first half of a visit, in one way through the lock.
    pub(crate) fn fetch<R: Wait>(&mut self, rt: &R, lock: &CountedLock<Book>) -> Fetched
        requires { IsHost (lock_id lock.now) self.old }
        ensures same { IsSameHost self.old self.new × (state_of self.new ≡ state_of self.old) }
        ensures fetched { IsFirstHalf (lock_id lock.now) self.old self.new result }
        ensures begins { IsContinuation (sight self.new).entries (sight self.old).entries }
    {
        let seat = self.site.seat();
        let site = seat.site();
        let mut held = lock.enter(rt, seat);
        let fetched = inside::fetch(&mut held.value, site);
        lock.leave(seat, held);
        fetched
    }

    // The rest of a visit that goes on with what was taken.
    pub(crate) fn end_visit<G: Gate, R: Wait>(
        &mut self,
        rt: &R,
        lock: &CountedLock<Book>,
        gate: &G,
        taken: Option<(u64, Bytes)>,
        limit: u64,
    ) -> Visited
        requires { (a : Host) × HasBegun (lock_id lock.now) a self.old taken limit }
        ensures host { IsHost (lock_id lock.now) self.new × IsSameHost self.old self.new }
        ensures visited { (a : Host) → HasBegun (lock_id lock.now) a self.old taken limit → IsVisit a self.new result }
    {
        if taken.is_none() && self.site.idle() {
            return Visited::Nothing;
        }
        match self.counted_turn(rt, gate, taken, limit) {
            Some(turn) => self.post(rt, lock, turn),
            None => Visited::Over(self.fail(rt, lock)),
        }
    }

    // A turn of a site that is not idle or has a message, posted; and what is fetched then, for the next visit.
    pub(crate) fn turn_and_fetch<G: Gate, R: Wait>(
        &mut self,
        rt: &R,
        lock: &CountedLock<Book>,
        gate: &G,
        message: Option<(u64, Bytes)>,
        limit: u64,
    ) -> Fetched
        requires begun { (a : Host) × HasBegun (lock_id lock.now) a self.old message limit }
        requires cause { message ≡ None → is_idle (state_of self.old) ≡ false }
        ensures same { IsSameHost self.old self.new }
        ensures visited { (a : Host) → HasBegun (lock_id lock.now) a self.old message limit → IsNextVisit (lock_id lock.now) a self.new result }
    {
        match self.counted_turn(rt, gate, message, limit) {
            Some(turn) => self.post_and_fetch(rt, lock, turn),
            None => Fetched::Over(self.fail(rt, lock)),
        }
    }

    // The next turn, behind the gate.
    fn counted_turn<G: Gate, R: Wait>(
        &mut self,
        rt: &R,
        gate: &G,
        taken: Option<(u64, Bytes)>,
        limit: u64,
    ) -> Option<SpelledTurn>
        requires taken { (t : TableId) × HasSpelling t self.old taken }
        requires limit { (limit ≡ book_steps (sight self.old)) × (limit ≤ MOST_STEPS) }
        ensures same { IsSameHost self.old self.new × (self.new.site.seat ≡ self.old.site.seat) }
        ensures turned { (t : TableId) → HasSpelling t self.old taken → HasTriedTurn t self.new result }
        ensures recipients { IfSome result (λ e. AreRecipients self.new.recipients e.sent) }
        ensures turn { (m : Option (ℕ × AMsg)) → IsSpelledBy taken m → IfSome result (λ e. IsTurnMade (program_of self.old) (sites_of self.old) (state_of self.old) m (min (limit - (state_of self.old).steps) MOST_UNITS) e (state_of self.new)) }
    {
        self.turns = self.turns.saturating_add(1);
        gate.before_turn(rt, self.number, self.turns);
        self.turn(taken, limit)
    }

    // The turn, outside the lock, from the bytes of its message to those of the messages that it sends. Without memory the site
    // is given up.
    fn turn(&mut self, taken: Option<(u64, Bytes)>, limit: u64) -> Option<SpelledTurn>
        requires taken { (t : TableId) × HasSpelling t self.old taken }
        requires limit { (limit ≡ book_steps (sight self.old)) × (limit ≤ MOST_STEPS) }
        ensures same { IsSameHost self.old self.new × (self.new.site.seat ≡ self.old.site.seat) }
        ensures turned { (t : TableId) → HasSpelling t self.old taken → HasTriedTurn t self.new result }
        ensures recipients { IfSome result (λ e. AreRecipients self.new.recipients e.sent) }
        ensures turn { (m : Option (ℕ × AMsg)) → IsSpelledBy taken m → IfSome result (λ e. IsTurnMade (program_of self.old) (sites_of self.old) (state_of self.old) m (min (limit - (state_of self.old).steps) MOST_UNITS) e (state_of self.new)) }
    {
        let Ok(message) = read(self.alloc, taken) else {
            self.spent = true;
            return None;
        };
        let turn = self.make_turn(message, limit)?;
        sites_send_what_fits();
        let Ok(spelled) = SpelledTurn::new(self.alloc, turn) else {
            self.spent = true;
            return None;
        };
        Some(spelled)
    }

    // The turn with its message. Without memory the site is given up.
    fn make_turn(&mut self, message: Option<(u64, Msg)>, limit: u64) -> Option<Turn>
        requires message { (t : TableId) × HasMessage t self.old message }
        requires limit { (limit ≡ book_steps (sight self.old)) × (limit ≤ MOST_STEPS) }
        ensures same { IsSameHost self.old self.new × (self.new.site.seat ≡ self.old.site.seat) }
        ensures turned { (t : TableId) → HasMessage t self.old message → HasTriedTurn t self.new result }
        ensures recipients { IfSome result (λ e. AreRecipients self.new.recipients e.sent) }
        ensures turn { IfSome result (λ e. IsTurnMade (program_of self.old) (sites_of self.old) (state_of self.old) message (min (limit - (state_of self.old).steps) MOST_UNITS) e (state_of self.new)) }
    {
        let left = limit.saturating_sub(self.site.steps());
        match self
            .site
            .turn(message, Quantum(left.min(MOST_UNITS as u64) as u32))
        {
            Ok(turn) => {
                self.recipients = recipients_of(turn.sent.as_slice());
                Some(turn)
            }
            Err(_) => {
                self.spent = true;
                None
            }
        }
    }

    // The second half of a visit, in one way through the lock. A site whose turn is refused is given up.
    fn post<R: Wait>(&mut self, rt: &R, lock: &CountedLock<Book>, turn: SpelledTurn) -> Visited
        requires { HasTurned (lock_id lock.now) self.old turn }
        ensures host { IsHost (lock_id lock.now) self.new × IsSameHost self.old self.new }
        ensures visited { IsSecondHalf self.old.number turn (sight self.old) (sight self.new) result }
        ensures state { state_of self.new ≡ state_of self.old }
        ensures recipients { self.new.recipients ≡ self.old.recipients }
        ensures begins { IsContinuation (sight self.new).entries (sight self.old).entries }
    {
        let seat = self.site.seat();
        let mut held = lock.enter(rt, seat);
        let posted = inside::post(&mut held.value, turn);
        lock.leave(seat, held);
        match posted {
            PostOutcome::Posted(ended) => match ended {
                None => Visited::Did,
                Some(reason) => Visited::Over(reason),
            },
            PostOutcome::Refused(reason) => {
                self.spent = true;
                Visited::Over(reason)
            }
        }
    }

    // The second half of a visit and the first half of the next one, in one way through the lock. A site whose turn is refused
    // is given up.
    fn post_and_fetch<R: Wait>(
        &mut self,
        rt: &R,
        lock: &CountedLock<Book>,
        turn: SpelledTurn,
    ) -> Fetched
        requires { HasTurned (lock_id lock.now) self.old turn }
        ensures same { IsSameHost self.old self.new }
        ensures next { IsNextHalf (lock_id lock.now) self.old self.new turn result }
    {
        let seat = self.site.seat();
        let site = seat.site();
        let mut held = lock.enter(rt, seat);
        let next = inside::post_and_fetch(&mut held.value, turn, site);
        lock.leave(seat, held);
        match next {
            NextVisit::Posted(fetched) => fetched,
            NextVisit::Refused(reason) => {
                self.spent = true;
                Fetched::Over(reason)
            }
        }
    }

    // The second half of a visit whose turn had no memory, in one way through the lock.
    fn fail<R: Wait>(&mut self, rt: &R, lock: &CountedLock<Book>) -> Reason
        requires { HasFailed (lock_id lock.now) self.old }
        ensures host { IsHost (lock_id lock.now) self.new × IsSameHost self.old self.new }
        ensures visited { IsGivenUp self.old.number (sight self.old) (sight self.new) (Over result) }
    {
        let seat = self.site.seat();
        let mut held = lock.enter(rt, seat);
        let reason = inside::fail(&mut held.value);
        lock.leave(seat, held);
        reason
    }
}

// The message that was taken. Its bytes spell one, so no fault comes.
fn read(alloc: Global, taken: Option<(u64, Bytes)>) -> Result<Option<(u64, Msg)>, AllocError>
    requires { (m : Option (ℕ × AMsg)) × IsSpelledBy taken m }
    ensures { IfOk result (λ o. (m : Option (ℕ × AMsg)) → IsSpelledBy taken m → o ≡ m) }
{
    let Some((number, bytes)) = taken else {
        return Ok(None);
    };
    match decode(alloc, bytes.as_slice()) {
        Ok(msg) => Ok(Some((number, msg))),
        Err(WireFault::Memory) => Err(AllocError),
        Err(_) => unreachable!(),
    }
}

// The sites that the messages go to: the bit `k - 1` for the site `k`.
fn recipients_of(sent: &[Sent]) -> u64
    ensures { AreRecipients result sent.now }
{
    let mut recipients = 0;
    for one in sent {
        recipients |= bit_of(one.to);
    }
    recipients
}

// The bit of a site, from 1 on; none where there is no such site.
fn bit_of(site: u32) -> u64
    ensures one { IsSiteOf MOST_SITES site → result ≡ 2 ^ (site - 1) }
    ensures none { (IsSiteOf MOST_SITES site → ⊥) → result ≡ 0 }
{
    if 1 <= site && site <= MOST_SITES {
        1u64 << (site - 1)
    } else {
        0
    }
}
