//! What is done to the book inside the lock, each part in one call.

ghost use Rattle.std.specs.Prelude.{◌≡◌, ℕ, Some, Contains};
ghost use Rattle.site_message.specs.Story.{hand};
ghost use Rattle.message_book.specs.Book.{IsSiteOf, sight_of};
ghost use Rattle.book_lock.specs.Rule.{IsLawfulChange};
ghost use Rattle.site_worker.specs.Inside.{HasCause, HasFetched, HasPosted, HasPostedAndFetched, IsClosedBy};

use message_book::{Book, SpelledTurn};
use site_message::Reason;
use wire_form::Bytes;

/// What the first half of a visit finds: a reason to end, or a message as its number and its bytes or none, and the limit of
/// own steps.
#[derive(Drop)]
pub(crate) enum Fetched {
    Over(Reason),
    Open(Option<(u64, Bytes)>, u64),
}

/// What the second half leaves: the turn was posted, and the book has a reason now or none; or it was refused.
#[derive(Drop)]
pub(crate) enum PostOutcome {
    Posted(Option<Reason>),
    Refused(Reason),
}

/// What the second half of a visit and the first half of the next one leave: the turn was posted, and this was fetched; or it was
/// refused.
#[derive(Drop)]
pub(crate) enum NextVisit {
    Posted(Fetched),
    Refused(Reason),
}

// Hands out a message, unless the book has a reason.
pub(crate) fn fetch(book: &mut Book, site: u32) -> Fetched
    requires { IsSiteOf book.old.limits.sites site }
    ensures lawful { IsLawfulChange site (sight_of book.old) (sight_of book.new) }
    ensures fetched { HasFetched site (sight_of book.old) (sight_of book.new) result }
    ensures cause { HasCause (sight_of book.new) }
{
    if let Some(reason) = book.reason() {
        return Fetched::Over(reason);
    }
    let limit = book.step_limit();
    Fetched::Open(book.take(site), limit)
}

// Posts the turn. Where it is refused the book has a reason: the one that it had, or want of memory.
pub(crate) fn post(book: &mut Book, turn: SpelledTurn) -> PostOutcome
    requires site { IsSiteOf book.old.limits.sites turn.site }
    requires delivered { (k : ℕ) → turn.delivered ≡ Some k → Contains (hand turn.site book.old.hands) k }
    ensures lawful { IsLawfulChange turn.site (sight_of book.old) (sight_of book.new) }
    ensures delivered { HasPosted turn (sight_of book.old) (sight_of book.new) result }
    ensures cause { HasCause (sight_of book.new) }
{
    match book.post(turn) {
        Ok(()) => PostOutcome::Posted(book.reason()),
        Err(_) => PostOutcome::Refused(fail(book)),
    }
}

// Posts the turn, and hands out the next message.
pub(crate) fn post_and_fetch(book: &mut Book, turn: SpelledTurn, site: u32) -> NextVisit
    requires site { IsSiteOf book.old.limits.sites site × (turn.site ≡ site) }
    requires delivered { (k : ℕ) → turn.delivered ≡ Some k → Contains (hand turn.site book.old.hands) k }
    ensures lawful { IsLawfulChange site (sight_of book.old) (sight_of book.new) }
    ensures delivered { HasPostedAndFetched site turn (sight_of book.old) (sight_of book.new) result }
    ensures cause { HasCause (sight_of book.new) }
{
    match post(book, turn) {
        PostOutcome::Posted(_) => NextVisit::Posted(fetch(book, site)),
        PostOutcome::Refused(reason) => NextVisit::Refused(reason),
    }
}

// Closes the book for want of memory, if it has no reason yet, and tells its reason.
pub(crate) fn fail(book: &mut Book) -> Reason
    ensures closed { IsClosedBy book.old book.new result }
    ensures cause { HasCause (sight_of book.new) }
{
    book.close(Reason::Memory);
    match book.reason() {
        Some(reason) => reason,
        None => Reason::Memory,
    }
}
