//! How large a run over sites may be.

/// On how many sites a run goes, how many own steps each site may make, and how many messages may be sent. Their ranges are
/// `AreLimits`: 1 to `MOST_SITES`, 1 to `MOST_STEPS`, and at most `MOST_MESSAGES`.
#[derive(Clone, Copy, Debug, PartialEq, Eq)]
pub struct Limits {
    pub sites: u32,
    pub steps: u64,
    pub messages: u64,
}
