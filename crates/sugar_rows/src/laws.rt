//! Laws of the definition. Each function does nothing: its clauses are the law.

ghost use Rattle.oz_grammar.specs.Laws.{OneProgram, AreOneOfBoth};
ghost use Rattle.oz_grammar.specs.Reads.{Reads, FaultOf};
ghost use Rattle.sugar_rows.specs.Laws.{KernelStands};
ghost use Rattle.sugar_rows.specs.Rows.{PartsAreNamed, TestsAreNamed, VariablesStay, BracketsAreNamed, FieldsAreNamed, ResultIsFormal, BranchesTell, ClausesNest, FinallyRuns};

use oz_lexer::texts_divide;

/// What symbols of a program of the kernel are read as with sugar stands for that program.
pub fn kernel_stands_for_itself()
    ensures { KernelStands }
{}

/// Symbols are one program of the kernel at most.
pub fn kernel_programs_are_one()
    ensures { OneProgram }
{}

/// Each text is one program of the kernel or has one first fault as such, never both.
pub fn kernel_texts_have_one_of_both()
    ensures { AreOneOfBoth Reads FaultOf }
{
    texts_divide();
}

/// Worked examples: what programs with sugar stand for.
pub fn expanded_examples()
    ensures parts_are_named { PartsAreNamed }
    ensures tests_are_named { TestsAreNamed }
    ensures variables_stay { VariablesStay }
    ensures brackets_are_named { BracketsAreNamed }
    ensures fields_are_named { FieldsAreNamed }
    ensures result_is_formal { ResultIsFormal }
    ensures branches_tell { BranchesTell }
    ensures clauses_nest { ClausesNest }
    ensures finally_runs { FinallyRuns }
{}
