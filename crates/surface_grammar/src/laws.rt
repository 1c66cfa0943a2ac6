//! Laws of the definitions. Each function does nothing: its clauses are the law.

ghost use Rattle.oz_grammar.specs.Laws.{AreOneOfBoth};
ghost use Rattle.surface_grammar.specs.Laws.{SymbolsHaveOne, NeverBoth, OneFault, PointsTellFaults, PointsTellPrograms, ReadsPrograms, ReadsFaults, OneTree, ReadsFit, KernelReads};
ghost use Rattle.surface_grammar.specs.Texts.{Reads, FaultOf, TextsFit};
ghost use Rattle.surface_grammar.specs.Rows.{FunNeedsBrace, BrowseNeedsValue, TryNeedsHandler, OperatorsNeedBrackets, TestsNeedBrackets, TestNeedsValue, IfNeedsElse, CallNeedsClose, CaseNeedsElse, FactorialPasses, ClausesPass, FinallyPasses, TestsPass, LabelsPass, IntegerIsValue, TwiceByPosition, TwiceByFeature, TwiceBeforeRefusal, UnboundPrimary, VariablesTakeNoLevel, PartsTakeLevel, TestsTakeLevel, DotsTakeLevels, ThreeLevels, TwoLevels, ListsTakeLevels, TailIsTooDeep};

use oz_lexer::texts_divide;

/// Symbols are a program or have one first fault, never both, and reading by the points tells which.
pub fn one_of_both()
    ensures one { SymbolsHaveOne }
    ensures never_both { NeverBoth }
    ensures fault { OneFault }
    ensures told { PointsTellFaults }
    ensures read { PointsTellPrograms }
{}

/// Reading gives the tree that symbols are, and their first fault, and nothing else.
pub fn reading_is_exact()
    ensures programs { ReadsPrograms }
    ensures faults { ReadsFaults }
    ensures tree { OneTree }
{}

/// What the symbols of a text are read as is within the limits of trees.
pub fn reads_fit()
    ensures { ReadsFit }
{}

/// Each text is one program with sugar or has one first fault, never both, and what a text in UTF-8 is read as is within the
/// limits of trees.
pub fn texts_have_one_of_both()
    ensures one_of_both { AreOneOfBoth Reads FaultOf }
    ensures fit { TextsFit }
{
    texts_divide();
}

/// Symbols that are a program of the kernel language are one with sugar.
pub fn kernel_programs_read()
    ensures { KernelReads }
{}

/// Worked examples: where texts are refused, and what is expected there.
pub fn expected_examples()
    ensures fun_needs_brace { FunNeedsBrace }
    ensures browse_needs_value { BrowseNeedsValue }
    ensures try_needs_handler { TryNeedsHandler }
    ensures operators_need_brackets { OperatorsNeedBrackets }
    ensures tests_need_brackets { TestsNeedBrackets }
    ensures test_needs_value { TestNeedsValue }
    ensures if_needs_else { IfNeedsElse }
    ensures call_needs_close { CallNeedsClose }
    ensures case_needs_else { CaseNeedsElse }
{}

/// Worked examples: texts in which nothing is wrong.
pub fn passing_examples()
    ensures factorial_passes { FactorialPasses }
    ensures clauses_pass { ClausesPass }
    ensures finally_passes { FinallyPasses }
    ensures tests_pass { TestsPass }
    ensures labels_pass { LabelsPass }
{}

/// Worked examples: fields of records, and used names.
pub fn field_examples()
    ensures integer_is_value { IntegerIsValue }
    ensures twice_by_position { TwiceByPosition }
    ensures twice_by_feature { TwiceByFeature }
    ensures twice_before_refusal { TwiceBeforeRefusal }
    ensures unbound_primary { UnboundPrimary }
{}

/// Worked examples: how deep values are.
pub fn level_examples()
    ensures variables_take_no_level { VariablesTakeNoLevel }
    ensures parts_take_level { PartsTakeLevel }
    ensures tests_take_level { TestsTakeLevel }
    ensures dots_take_levels { DotsTakeLevels }
    ensures three_levels { ThreeLevels }
    ensures two_levels { TwoLevels }
    ensures lists_take_levels { ListsTakeLevels }
    ensures tail_is_too_deep { TailIsTooDeep }
{}
