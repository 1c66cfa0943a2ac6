//! What a run gives.

use site_message::{History, Journal, Reason, Schedule};

/// What the driver of a run leaves: the turns that were made with their schedule, and why no more were. It has no `Drop`: whoever has
/// turns hands them on.
pub struct DrivenRun {
    pub history: History,
    pub reason: Reason,
}

/// How a run ended: the reason, how many threads ended and wait by what the sites told last, the turns made, and the picks by
/// which the centralised machine makes the same run. It has no `Drop`, as its journal has none.
pub struct RunOut {
    pub reason: Reason,
    pub ended: u64,
    pub waiting: u64,
    pub journal: Journal,
    pub schedule: Schedule,
}
