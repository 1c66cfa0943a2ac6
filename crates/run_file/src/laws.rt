//! Laws of the format, and a worked run. Each function does nothing: its clauses are what it shows.

ghost use Rattle.run_file.specs.Laws.{BytesHaveOne, SavesOne, HasOneFault, NotBoth, NoProperPrefix, NoTextGoesOn, SomeTextBegins};
ghost use Rattle.run_file.specs.Fits.{TheseAreSaved};
ghost use Rattle.run_file.specs.Rows.{WorkedRunIsSaved, SmallRunIsSaved, NothingIsBad, OtherVersionIsBad, SiteIsOut, ZeroIsLeading, EntryIsOut, MoreIsBad};

/// Every list of bytes is the text of one saved run, or has one first fault.
pub fn bytes_save_or_fail()
    ensures one { BytesHaveOne }
    ensures run { SavesOne }
    ensures fault { HasOneFault }
    ensures apart { NotBoth }
{}

/// No text of a saved run is a proper prefix of another.
pub fn no_proper_prefix()
    ensures { NoProperPrefix }
{}

/// Where a first fault stands: the bytes before it begin a text of a saved run, and no text goes on with the byte there, or, where a
/// number that is out of range stands there, with its digits.
pub fn first_fault_is_exact()
    ensures before { SomeTextBegins }
    ensures there { NoTextGoesOn }
{}

/// The runs that have a text.
pub fn these_are_saved()
    ensures { TheseAreSaved }
{}

/// Two runs and their texts.
pub fn worked_runs()
    ensures one { WorkedRunIsSaved }
    ensures small { SmallRunIsSaved }
{}

/// Bytes that are no saved run, and their first faults.
pub fn worked_file_faults()
    ensures nothing { NothingIsBad }
    ensures version { OtherVersionIsBad }
    ensures site { SiteIsOut }
    ensures zero { ZeroIsLeading }
    ensures entry { EntryIsOut }
    ensures more { MoreIsBad }
{}
