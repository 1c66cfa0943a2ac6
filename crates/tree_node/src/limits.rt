//! The greatest numbers that the parts of the system agree on, by name. Definitions of other crates use these names, too.

/// How many sites a run has at most.
pub const MOST_SITES: u32 = 64;

/// How many items each list of a statement or a value has at most: the identifiers that `local` declares, the fields of a record
/// or of a pattern, the formals of a procedure, the arguments of a call.
pub const MOST_ITEMS: u32 = 64;

/// How many units a turn of a site has at most, which is how many steps a thread makes before the others have their turn.
pub const MOST_UNITS: u32 = 64;

/// How many own steps each site of a run may make at most, whatever limit is asked for.
pub const MOST_STEPS: u64 = 1_000_000_000;

/// How many messages a run may send at most, whatever limit is asked for.
pub const MOST_MESSAGES: u64 = 4_000_000_000;
