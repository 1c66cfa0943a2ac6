//! How a call ended.

ghost use Rattle.std.specs.Prelude.{◌≡◌};
ghost use Rattle.oz_show.specs.Status.{status_number};

use oz_grammar::TextFault;

/// How a call of `oz` ended. Each status has an end line, which is the last line that is written, and a number, with
/// which the program ends.
#[derive(Clone, Copy, Debug, PartialEq, Eq)]
pub enum Status {
    /// Nothing goes on: so many threads have ended, and so many wait for variables that nobody binds.
    Quiescent { ended: u64, waiting: u64 },
    /// The words after the program's name are not taken.
    Usage,
    /// The text is no program.
    Refused(TextFault),
    /// The text is not UTF-8; so many bytes at its front are.
    NotUtf8(u64),
    /// The text has more than 1,048,576 bytes, or what should be a saved run more than 268,435,456.
    TooLong,
    /// This site, 1 to 64, made as many steps as it may, and could go on. The centralised machine is site 1.
    StepLimit(u32),
    /// The sites sent more messages to each other than they may.
    MessageLimit,
    /// The source failed.
    ReadFault,
    /// The sink failed: nothing more was written.
    WriteFault,
    /// Memory was wanting.
    Memory,
    /// A saved run was made again, whole: so many entries, and so many picks in its schedule.
    Checked { entries: u64, picks: u64 },
    /// A saved run is wrong at this entry, counted from 0; at its end line where this is the number of its entries.
    Wrong(u64),
    /// What should be a saved run is none; this byte, counted from 0, is the first that is wrong.
    BadFile(u64),
}

impl Status {
    /// The number with which the program ends: 0 where every thread ended, or a saved run was made again.
    pub fn number(&self) -> u8
        ensures { result ≡ status_number self.now }
    {
        match self {
            Status::Quiescent { waiting: 0, .. } | Status::Checked { .. } => 0,
            Status::Quiescent { .. } => 1,
            Status::Usage => 2,
            Status::Refused(_) | Status::NotUtf8(_) | Status::TooLong => 3,
            Status::StepLimit(_) => 4,
            Status::MessageLimit => 5,
            Status::ReadFault => 6,
            Status::WriteFault => 7,
            Status::Memory => 8,
            Status::Wrong(_) => 9,
            Status::BadFile(_) => 10,
        }
    }
}
