//! What may cross from one thread to another. Who takes Send or Sync from one of these types is refused here.

use crate::lock::{CountedLock, Held, SiteSeat};
use site_message::Story;

fn is_send<T: Send>() {}

fn is_send_and_sync<T: Send + Sync>() {}

// Threads share a lock round what may go to another thread, each with its seat.
fn cross_threads<B: Story + Send>() {
    is_send_and_sync::<CountedLock<B>>();
    is_send::<SiteSeat>();
    is_send::<Held<B>>();
}
