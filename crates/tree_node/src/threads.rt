//! What may cross from one thread to another, and what threads may share. A type that loses Send or Sync is refused here.

use crate::env::Env;
use crate::line::Line;
use crate::pick::Pick;

fn is_send_and_sync<T: Send + Sync>() {}

// Threads may hold and share each of these.
fn cross_threads() {
    is_send_and_sync::<Env>();
    is_send_and_sync::<Line>();
    is_send_and_sync::<Pick>();
}
