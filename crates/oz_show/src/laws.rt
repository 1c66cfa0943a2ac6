//! Laws of canonical texts. The functions do nothing: a caller learns their clauses.

ghost use Rattle.oz_show.specs.Laws.{CanonicalReadsBack, CanonicalIsUtf8, ProgramsAreTexts};

/// Every program is what its canonical text is read as, and that text is UTF-8.
pub fn canonical_text_reads_back()
    ensures reads { CanonicalReadsBack }
    ensures utf8 { CanonicalIsUtf8 }
{}

/// A table is a program exactly where a text in UTF-8 is read as it.
pub fn programs_are_texts()
    ensures { ProgramsAreTexts }
{}
