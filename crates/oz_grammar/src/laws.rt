//! Laws of the definitions. Each function does nothing: its clauses are the law.

ghost use Rattle.oz_grammar.specs.Laws.{ReadsPrograms, ReadsFaults, SymbolsHaveOne, NeverBoth, OneFault, ReadsArePrograms, CanonicalReads, ProgramsRead, ReadsTexts, FaultsTexts, TextsArePrograms};
ghost use Rattle.oz_grammar.specs.Rows.{EmptyText, OpenQuoteAt, UndeclaredAt, BuiltInIsFull, HiddenBuiltIn, TwiceByPosition, TwiceBeforeColon, TwiceInPattern, SiteBelow, NumberFirst, BehindThread, HiddenCounts, PatternOrder, BodiesInPreorder, ExampleReads, ExampleIsCanonical};

use oz_lexer::texts_divide;

/// Reading by the points finds no fault exactly where symbols are a program, and else their first fault.
pub fn reading_is_exact()
    ensures programs { ReadsPrograms }
    ensures faults { ReadsFaults }
{}

/// Symbols are a program or have one first fault, never both.
pub fn one_of_both()
    ensures one { SymbolsHaveOne }
    ensures never_both { NeverBoth }
    ensures fault { OneFault }
{}

/// What spelled symbols are read as is a program, and so is what a text in UTF-8 is read as.
pub fn reads_are_programs()
    ensures symbols { ReadsArePrograms }
    ensures texts { TextsArePrograms }
{}

/// What symbols are read as is read again from its canonical symbols, and so is every program.
pub fn canonical_symbols_read()
    ensures again { CanonicalReads }
    ensures programs { ProgramsRead }
{}

/// Reading the tokens of a text by the points finds no fault exactly where the text is a program, and else the text's first fault, at
/// its place.
pub fn reading_texts_is_exact()
    ensures programs { ReadsTexts }
    ensures faults { FaultsTexts }
{
    texts_divide();
}

/// Worked examples: where symbols are refused.
pub fn refused_examples()
    ensures empty { EmptyText }
    ensures open_quote { OpenQuoteAt }
    ensures undeclared { UndeclaredAt }
    ensures built_in { BuiltInIsFull }
    ensures position { TwiceByPosition }
    ensures colon { TwiceBeforeColon }
    ensures pattern { TwiceInPattern }
    ensures site { SiteBelow }
    ensures number { NumberFirst }
    ensures thread { BehindThread }
{}

/// Worked examples: what symbols read as.
pub fn read_examples()
    ensures hidden_built_in { HiddenBuiltIn }
    ensures hidden_counts { HiddenCounts }
    ensures pattern_order { PatternOrder }
    ensures preorder { BodiesInPreorder }
    ensures reads { ExampleReads }
    ensures canonical { ExampleIsCanonical }
{}
