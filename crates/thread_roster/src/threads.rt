//! A roster may cross from one thread of the system to another where its values may. Who takes Send or Sync from it is
//! refused here.

use crate::Roster;

fn is_send_and_sync<T: Send + Sync>() {}

// Threads of the system may hold and share a roster.
fn crosses_threads<V: Send + Sync>() {
    is_send_and_sync::<Roster<V>>();
}
