//! What may cross from one thread to another, and what threads may share. A type that loses Send or Sync is refused here.

use crate::home::CellHome;
use crate::laws::CellWorld;
use crate::site::CellSite;

fn is_send_and_sync<T: Send + Sync>() {}

// Threads may hold and share each of these.
fn cross_threads() {
    is_send_and_sync::<CellSite>();
    is_send_and_sync::<CellHome>();
    is_send_and_sync::<CellWorld>();
}
