//! What may cross from one thread to another. A type that loses Send is refused here.

use crate::store::Store;

fn is_send<T: Send>() {}

// A thread may hand this on to another.
fn cross_threads() {
    is_send::<Store>();
}
