//! Laws of the definitions. Each function does nothing: its clauses are the law.

ghost use Rattle.oz_grammar.specs.Laws.{AreOneOfBoth};
ghost use Rattle.oz_sugar.specs.Laws.{KernelExpands};
ghost use Rattle.oz_sugar.specs.Texts.{Reads, FaultOf, TextsArePrograms, KernelTextsRead, RowsAreFew};
ghost use Rattle.oz_sugar.specs.Rows.{LeafFits, PartsGoDeeper, PartsFit, BracketsTakeNoLevel, FinallyTakesTwoLevels};

use oz_lexer::texts_divide;

/// What symbols of a program of the kernel are read as with sugar stands for that program.
pub fn kernel_expands()
    ensures { KernelExpands }
{}

/// Each text with sugar stands for one program or has one first fault, never both. What a text in UTF-8 stands for is a program,
/// and a text of the kernel stands for the program that it is.
pub fn texts_have_one_of_both()
    ensures one_of_both { AreOneOfBoth Reads FaultOf }
    ensures programs { TextsArePrograms }
    ensures kernel { KernelTextsRead }
{
    texts_divide();
    surface_grammar::texts_have_one_of_both();
    kernel_expands();
}

/// What a text stands for has at most three rows for each token.
pub fn rows_are_few()
    ensures { RowsAreFew }
{}

/// Worked examples: how deep programs with sugar are.
pub fn deep_examples()
    ensures leaf_fits { LeafFits }
    ensures parts_go_deeper { PartsGoDeeper }
    ensures parts_fit { PartsFit }
    ensures brackets_take_no_level { BracketsTakeNoLevel }
    ensures finally_takes_two_levels { FinallyTakesTwoLevels }
{}
