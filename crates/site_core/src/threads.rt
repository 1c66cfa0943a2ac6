//! What may cross from one thread to another, and what threads may share. A type that loses Send or Sync is refused here.

use crate::site::Site;
use site_message::{NoSeat, Outside};

fn is_send<T: Send>() {}

fn is_send_and_sync<T: Send + Sync>() {}

// A site goes from thread to thread where its seat may; one without a lock's seat is shared too.
fn cross_threads<O: Outside + Send>() {
    is_send::<Site<'static, O>>();
    is_send_and_sync::<Site<'static, NoSeat>>();
}
