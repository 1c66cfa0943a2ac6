//! Laws of what is told of a run. The functions do nothing: their clauses are what they show.

ghost use Rattle.run_trace.specs.Laws.{BirthsAreAll, RaisesAreOnce, UncaughtAreAll, UncaughtAreRaised};
ghost use Rattle.run_trace.specs.Rows.{CaughtIsTold, FailureIsTold, IntegerRaisesNothing};

/// Each exception that nothing caught is that of a step which leaves its thread with the report, and each thread that comes to stand at a
/// report has one.
pub fn uncaught_are_reports()
    ensures raised { UncaughtAreRaised }
    ensures all { UncaughtAreAll }
    ensures once { RaisesAreOnce }
{}

/// Each thread that comes to live is the first of its program, or was made by a step.
pub fn threads_have_births()
    ensures { BirthsAreAll }
{}

/// Worked examples: a run without exceptions, a tell that fails, and an exception that is caught.
pub fn worked_exceptions()
    ensures nothing { IntegerRaisesNothing }
    ensures failure { FailureIsTold }
    ensures caught { CaughtIsTold }
{}
