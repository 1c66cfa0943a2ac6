// A worked list of turns.

ghost use Rattle.std.specs.Prelude.{◌≡◌, ◌↔◌, ℕ, Contains, IfSome, IsTrue};
ghost use Rattle.tree_node.specs.Each.{Each};
ghost use Rattle.site_message.specs.declared.message.Sent.{Sent as ASent};
ghost use Rattle.site_message.specs.Wire.{FitsWire};
ghost use Rattle.message_book.specs.Book.{IsSiteOf};
ghost use Rattle.site_message.specs.Story.{hand};

use message_book::{Book, Posted, SpelledTurn};
use site_message::{
    Bundle, Limits, Lines, Msg, Picks, Reason, Sent, SentList, Turn, Units, wire_fits,
};
use std::alloc::{AllocError, Global};
use std::test::Fail;
use tree_node::{CodeId, Seq, ThreadName, Vars};
use wire_form::Bytes;

// What is seen of a book while site 1 sends a thread to site 2, which runs it to its end.
#[derive(Drop)]
struct Observed {
    after_first: Option<Reason>,
    number: u64,
    is_spelling: bool,
    quiet_in_between: bool,
    after_second: Option<Reason>,
    third: Result<(), Posted>,
    after_close: Option<Reason>,
    step_limit: u64,
    entries: usize,
}

// A turn of an idle site that made one step.
fn turn(alloc: Global, site: u32, delivered: Option<u64>, sent: SentList) -> Turn
    ensures { (result.site ≡ site) × (result.delivered ≡ delivered) }
{
    Turn {
        site,
        delivered,
        units: Units::new(alloc),
        picks: Picks::new(),
        sent,
        lines: Lines::new(alloc),
        idle: true,
        ended: 1,
        waiting: 0,
        steps: 1,
    }
}

// One thread that starts at site 2.
fn one_spawn(alloc: Global) -> Result<SentList, AllocError> {
    let mut sent = Vec::new(alloc);
    let msg = Msg::Spawn {
        thread: ThreadName { site: 1, num: 1 },
        code: CodeId(3),
        vars: Vars::from_vec(Vec::new(alloc))?,
        bundle: Bundle::new(),
    };
    sent.push(Sent { to: 2, msg })?;
    Ok(Seq::from_vec(sent))
}

// Whether each message can be spelled.
#[tactic(auto, using(site_message::proofs::EachLemmas::each_step, site_message::proofs::EachLemmas::each_stop, site_message::proofs::EachLemmas::each_end))]
fn all_fit(sent: &[Sent]) -> bool
    ensures { IsTrue result ↔ Each (λ (s : ASent). FitsWire s.msg) sent.now }
{
    for one in sent {
        if !wire_fits(&one.msg) {
            return false;
        }
    }
    true
}

// The turn with the spellings of its messages, where each can be spelled.
fn spell_turn(alloc: Global, turn: Turn) -> Option<SpelledTurn>
    ensures { IfSome result (λ s. s ≡ turn) }
{
    if all_fit(turn.sent.as_slice()) {
        SpelledTurn::new(alloc, turn).ok()
    } else {
        None
    }
}

// Whether the bytes are those of the message that `one_spawn` sends: its kind, the thread 1 of site 1, code 3, no variables
// and no equations.
fn is_spelling(bytes: &Bytes) -> bool {
    bytes.as_slice() == [17, 1, 0, 0, 0, 0, 0, 0, 0, 1, 0, 0, 0, 3, 0, 0, 0, 0].as_slice()
}

// Site 1 posts that it sent a thread to site 2.
fn post_first(alloc: Global, book: &mut Book) -> bool
    requires { book.old.limits.sites ≡ 2 }
    ensures { book.new.limits.sites ≡ 2 }
{
    let Ok(sent) = one_spawn(alloc) else {
        return false;
    };
    match spell_turn(alloc, turn(alloc, 1, None, sent)) {
        Some(first) => book.post(first).is_ok(),
        None => false,
    }
}

// Site 2 takes a message.
fn take_message(book: &mut Book) -> Option<(u64, Bytes)>
    requires { book.old.limits.sites ≡ 2 }
    ensures sites { book.new.limits.sites ≡ 2 }
    ensures hand { IfSome result (λ x. Contains (hand 2 book.new.hands) x.0) }
{
    book.take(2)
}

// Whether no message waits for a site. One that does is lost.
fn has_none(book: &mut Book, site: u32) -> bool
    requires { IsSiteOf book.old.limits.sites site }
    ensures { IsTrue result → book.new ≡ book.old }
{
    match book.take(site) {
        None => true,
        Some(_) => false,
    }
}

// Site 2 posts that it delivered the message.
fn post_second(alloc: Global, book: &mut Book, number: u64) -> bool
    requires sites { book.old.limits.sites ≡ 2 }
    requires hand { Contains (hand 2 book.old.hands) number }
    ensures { book.new.limits.sites ≡ 2 }
{
    let none = SentList::new(alloc);
    match spell_turn(alloc, turn(alloc, 2, Some(number), none)) {
        Some(second) => book.post(second).is_ok(),
        None => false,
    }
}

// Site 1 posts a turn that delivers nothing.
fn post_third(alloc: Global, book: &mut Book) -> Result<(), Posted>
    requires { book.old.limits.sites ≡ 2 }
    ensures { book.new.limits.sites ≡ 2 }
{
    let none = SentList::new(alloc);
    match spell_turn(alloc, turn(alloc, 1, None, none)) {
        Some(third) => book.post(third),
        None => Err(Posted::Memory),
    }
}

// Closes a book that has a reason, and tells the reason that it has then.
fn close_book(book: &mut Book) -> Option<Reason> {
    if book.reason().is_some() {
        book.close(Reason::Steps(1));
    }
    book.reason()
}

// What two turns of two sites come to.
fn run_in(alloc: Global, book: &mut Book) -> Option<Observed>
    requires { book.old.limits.sites ≡ 2 }
{
    if !post_first(alloc, book) {
        return None;
    }
    let after_first = book.reason();
    if !has_none(book, 1) {
        return None;
    }
    let (number, bytes) = take_message(book)?;
    if !has_none(book, 2) {
        return None;
    }
    let quiet_in_between = book.quiet();
    if !post_second(alloc, book, number) {
        return None;
    }
    let after_second = book.reason();
    let third = post_third(alloc, book);
    let after_close = close_book(book);
    Some(Observed {
        after_first,
        number,
        is_spelling: is_spelling(&bytes),
        quiet_in_between,
        after_second,
        third,
        after_close,
        step_limit: book.step_limit(),
        entries: book.journal().oldest_first().len(),
    })
}

// The turns of the book are given up.
fn run_two_turns(alloc: Global) -> Option<Observed> {
    let limits = Limits {
        sites: 2,
        steps: 10,
        messages: 1,
    };
    let Ok(mut book) = Book::new(alloc, limits) else {
        return None;
    };
    let seen = run_in(alloc, &mut book);
    let (journal, _) = book.into_history().into_parts();
    journal.forget();
    seen
}

// Of two sites, with a limit of ten steps and one message.
#[test]
fn two_turns_make_a_run_quiet(rt: HostRuntime) -> Result<(), Fail> {
    let Some(seen) = run_two_turns(rt.alloc()) else {
        return Err(Fail::new("a turn was not posted, or other messages wait than the thread"));
    };
    assert!(rt; seen.after_first.is_none());
    assert_eq!(rt; seen.number, 0);
    assert!(rt; seen.is_spelling);
    assert!(rt; !seen.quiet_in_between);
    assert_eq!(rt; seen.after_second, Some(Reason::Quiet));
    assert_eq!(rt; seen.third, Err(Posted::Closed(Reason::Quiet)));
    assert_eq!(rt; seen.after_close, Some(Reason::Quiet));
    assert_eq!(rt; seen.step_limit, 10);
    assert_eq!(rt; seen.entries, 2);
    Ok(())
}
