//! How the messages of a turn go to their places.

ghost use Rattle.std.specs.Prelude.{◌≡◌, ℕ, ◌+◌, ◌^◌, ◌≤◌, ◌<◌, ◌++◌, length, OnOk};
ghost use Rattle.message_book.specs.Inbox.{HoldsSame};
ghost use Rattle.message_book.specs.Inboxes.{place, inbox_at, new_messages, HasRoom};

use crate::inbox::Inbox;
use std::alloc::AllocError;
use std::collections::VecDeque;
use wire_form::Bytes;

// Where the messages to a site lie.
fn place_of(sites: u32, to: u32) -> usize
    ensures place { result ≡ place sites to }
    ensures below { result ≤ sites }
{
    if to <= sites { to as usize } else { 0 }
}

// Makes room for all of these messages at the place of each.
pub(crate) fn make_room(
    inboxes: &mut [Inbox],
    sites: u32,
    letters: &[(u32, Bytes)],
) -> Result<(), AllocError>
    requires { sites < length inboxes.old }
    ensures length { length inboxes.new ≡ length inboxes.old }
    ensures same { (i : ℕ) → HoldsSame (inbox_at inboxes.old i) (inbox_at inboxes.new i) }
    ensures ok { OnOk result (HasRoom sites inboxes.new (length letters.now) letters.now) }
{
    for k in 0..letters.len() {
        inboxes[place_of(sites, letters[k].0)].reserve(letters.len())?;
    }
    Ok(())
}

// Puts each message to its place. The first one has the given number.
pub(crate) fn enqueue_all(
    inboxes: &mut [Inbox],
    sites: u32,
    mut letters: VecDeque<(u32, Bytes)>,
    first: u64,
)
    requires room { HasRoom sites inboxes.old (length letters.items) letters.items }
    requires few { first + length letters.items < 2 ^ 64 }
    ensures length { length inboxes.new ≡ length inboxes.old }
    ensures hands { (i : ℕ) → (inbox_at inboxes.new i).hand ≡ (inbox_at inboxes.old i).hand }
    ensures idle { (i : ℕ) → (inbox_at inboxes.new i).idle ≡ (inbox_at inboxes.old i).idle }
    ensures waiting { (i : ℕ) → (inbox_at inboxes.new i).waiting ≡ (inbox_at inboxes.old i).waiting ++ new_messages sites i first letters.items }
{
    let mut number = first;
    while let Some((to, bytes)) = letters.pop_front() {
        inboxes[place_of(sites, to)].enqueue(number, bytes);
        number += 1;
    }
    letters.destroy_empty();
}
