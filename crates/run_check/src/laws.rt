//! Laws of runs made again. The functions do nothing: their clauses are what they show.

ghost use Rattle.run_check.specs.Laws.{MadeAgainIsRun, MadeAgainIsOne, NotBoth, PrintedLinesAreLines, RunsAreMadeAgain, RunsAreNotWrong, RunsMayBeSaved, WrongIsOne};

/// Entries that were made again are a run of the program, lead to one journal, and none of them is wrong. Of the entries of a run that
/// nothing ended before its end none is wrong, and made again they lead to this very run.
pub fn again_is_exact()
    ensures run { MadeAgainIsRun }
    ensures one { MadeAgainIsOne }
    ensures apart { NotBoth }
    ensures first { WrongIsOne }
    ensures right { RunsAreNotWrong }
    ensures same { RunsAreMadeAgain }
{}

/// No line that a run prints has a newline in it; and the entries of a run that nothing ended before its end have a text, where the
/// numbers of its threads have 64 bits.
pub fn runs_have_texts()
    ensures lines { PrintedLinesAreLines }
    ensures entries { RunsMayBeSaved }
{}
