//! What may cross from one thread to another, and what threads may share. A type that loses Send or Sync is refused here.

use crate::mail::Mail;
use crate::travel::Travel;

fn is_send_and_sync<T: Send + Sync>() {}

// Threads may hold and share each of these.
fn cross_threads() {
    is_send_and_sync::<Mail>();
    is_send_and_sync::<Travel>();
}
