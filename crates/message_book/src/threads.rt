//! What may cross from one thread to another. Who takes Send or Sync from one of these types is refused here.

use crate::book::Book;
use crate::posted::Posted;
use crate::spelled_turn::SpelledTurn;

fn is_send_and_sync<T: Send + Sync>() {}

// Threads may hold and share each of these.
fn cross_threads() {
    is_send_and_sync::<Book>();
    is_send_and_sync::<Posted>();
    is_send_and_sync::<SpelledTurn>();
}
