//! What a call tells.

use crate::Status;
use site_message::{Journal, Schedule};

/// How a call ended, the journal of its sites, and the schedule of its run: the picks under which the centralised machine
/// prints the same lines. Where nothing ran both are empty, and a run of that machine itself has no journal. It has no `Drop`, as its
/// journal has none.
pub struct Report {
    pub status: Status,
    pub schedule: Schedule,
    pub journal: Journal,
}
