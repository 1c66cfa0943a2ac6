//! What all workers of a run share.

use crate::load::worker_of;
use crossbeam_utils::sync::Unparker;
use std::sync::atomic::AtomicBool;
use std::sync::atomic::Ordering::SeqCst;

/// What all workers of a run share: what each is woken by, and last the caller, who drives the hosts of workers without a
/// thread; and for each worker whether its hosts are left to the caller.
#[derive(Drop)]
pub(crate) struct Shared {
    pub(crate) unparkers: Vec<Unparker>,
    pub(crate) left_to_caller: Vec<AtomicBool>,
}

impl Shared {
    // Wakes the workers of these sites, the bit `k - 1` for the site `k`.
    pub(crate) fn wake(&self, recipients: u64) {
        let workers = self.left_to_caller.len();
        if workers == 0 || self.unparkers.len() <= workers {
            return;
        }
        let mut left = recipients;
        let mut site = 1u32;
        for _ in 0..64u32 {
            if left == 0 {
                return;
            }
            if left % 2 == 1 {
                let worker = worker_of(site, workers);
                self.unparkers[worker].unpark();
                if self.left_to_caller[worker].load(SeqCst) {
                    self.unparkers[workers].unpark();
                }
            }
            left /= 2;
            site = site.wrapping_add(1);
        }
    }

    // Wakes all workers, and the caller.
    pub(crate) fn wake_all(&self) {
        for unparker in self.unparkers.as_slice() {
            unparker.unpark();
        }
    }
}
