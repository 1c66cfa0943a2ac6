//! What may cross from one thread to another, and what threads may share. A type that loses Send or Sync is refused here.

use crate::history::History;
use crate::limits::Limits;
use crate::message::{Bundle, Msg, Sent};
use crate::outbox::Outbox;
use crate::picks::Picks;
use crate::reason::Reason;
use crate::schedule::Schedule;
use crate::turn::{Journal, Turn};

fn is_send_and_sync<T: Send + Sync>() {}

// Threads may hold and share each of these.
fn cross_threads() {
    is_send_and_sync::<Limits>();
    is_send_and_sync::<Bundle>();
    is_send_and_sync::<Msg>();
    is_send_and_sync::<Sent>();
    is_send_and_sync::<Picks>();
    is_send_and_sync::<Turn>();
    is_send_and_sync::<Journal>();
    is_send_and_sync::<History>();
    is_send_and_sync::<Schedule>();
    is_send_and_sync::<Outbox>();
    is_send_and_sync::<Reason>();
}
