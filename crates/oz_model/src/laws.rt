//! Laws of steps and runs.

ghost use Rattle.oz_model.specs.Laws.{StepsAreDetermined, RunsAreDetermined, NoStepAtRest, RestOrStep, WaitsForUnbound, WaitsWhereOpen, TestsTellTruth, RunsAreSound, RunsGoOn, ExchangesChain, ExchangesEnd, CellsAreChains, CellsHaveContents, StepsFindCells, PortsAreChains, SendsAreInOrder, PortsHaveEnds, StepsFindPorts, NamesAreKnown, RunsAreOnce, OutcomesHaveShapes, TellsGoThrough};
ghost use Rattle.oz_model.specs.ThreadLaws.{EffectsAreNamed, NeedsAreNamed, OpensAreNamed, EffectsAreCovered, EffectsHaveNodes, EffectsKeepOneEach, RunsAreCovered, NamesAreTaken};
ghost use Rattle.tree_node.specs.Compare.{MoreIsWithin};
ghost use Rattle.oz_model.specs.Answers.{NodesAgree, CasesAgree, ShownAgree, FirstsAgree, NeedsAgree, BindsAgree, EffectsAgree, StepsStay, WaitsStay, OpenWaitsStay, BindsStay, LowerBinds};
ghost use Rattle.oz_model.specs.Occurs.{TestTellsNew, TestTellsOccurs};
ghost use Rattle.oz_model.specs.Examples.{ProcedureIsCalled, FieldIsMatched, HandlerHasException, ContentIsExchanged, PairIsSent, ThreadIsMade, OverflowIsRaised, IntegerIsNoTruth, SameIsEqual, ComparisonIsAwaited};
ghost use Rattle.oz_model.specs.WellFormed.{NodesAreWell};
ghost use Rattle.oz_model.specs.Rows.{IntegerIsPrinted, FailureIsReported, UnboundIsAwaited, AtomIsPrinted, AtomIsPrintedToo, SkipEnds, AreRefused, MarksCatch};

/// What a statement comes to is of one of the shapes. So what holds of each shape holds of the outcome of every statement.
pub fn outcomes_have_shapes()
    ensures { OutcomesHaveShapes }
{}

/// A pick leads to at most one state, and so do picks in a row.
pub fn runs_are_determined()
    ensures one { StepsAreDetermined }
    ensures end { RunsAreDetermined }
{}

/// A run and one more step are a run.
pub fn runs_go_on()
    ensures { RunsGoOn }
{}

/// A goal block whose only pair binds is three steps of its thread, which lead to the state with the equation, and without the block.
pub fn tells_go_through()
    ensures { TellsGoThrough }
{}

/// Each exchange of a cell gives the content that the one before put there, the first the content given to `NewCell`
/// or `NewCellAt`, and after the last the cell holds what that put there. A run makes a cell once at most, and a cell that occurs
/// has a content: the cell that a step exchanges has one, and the cell that a step makes has none yet.
pub fn exchanges_are_a_chain()
    ensures held { ExchangesChain }
    ensures end { ExchangesEnd }
    ensures chains { CellsAreChains }
    ensures contents { CellsHaveContents }
    ensures steps { StepsFindCells }
{}

/// Each send to a port gives the end that the one before left, the first the end given to `NewPort`, and those of a thread stand in the order of its
/// steps. A run makes a port once at most, and a port that occurs has an end: the port that a step sends to has one, and the port that a step makes
/// has none yet.
pub fn sends_are_a_chain()
    ensures chains { PortsAreChains }
    ensures order { SendsAreInOrder }
    ensures ends { PortsHaveEnds }
    ensures steps { StepsFindPorts }
{}

/// A step makes no names up but its fresh ones.
pub fn names_are_known()
    ensures { NamesAreKnown }
{}

/// A state is at rest exactly where no pick has a step, and a thread waits only for a variable that is not bound, or at a test of
/// two variables that are neither equal nor different.
pub fn rest_is_the_end()
    ensures rest { NoStepAtRest }
    ensures step { RestOrStep }
    ensures unbound { WaitsForUnbound }
    ensures undecided { WaitsWhereOpen }
{}

/// A test of two variables that are equal, or different, tells that: `==` tells `true` and `false`, `\=` the other way round.
pub fn tests_tell_truth()
    ensures { TestsTellTruth }
{}

/// The equations of a run's state are sound, its threads and cells are named once, and no living thread is empty. Its
/// records have 1 to 64 fields in order, and its procedures are those of their tells.
pub fn runs_are_sound()
    ensures equations { RunsAreSound }
    ensures once { RunsAreOnce }
    ensures nodes { NodesAreWell }
{}

/// A store that says more keeps what does not wait: what takes names or nothing goes as it does with fewer equations,
/// what waits for a variable without a node waits for it, the variables that are open in a comparison stay open in it while none has
/// a node, and a bind of a variable without a node to a term of another class stays one. Sites know fewer equations than there
/// are. Where links go down, binds of what has no equation to what is lower are of this kind.
pub fn more_equations_keep()
    ensures more { MoreIsWithin }
    ensures steps { StepsStay }
    ensures waits { WaitsStay }
    ensures several { OpenWaitsStay }
    ensures binds { BindsStay }
    ensures lower { LowerBinds }
{}

/// Answers depend on classes and their nodes alone: two sound stores that agree on these answer alike, whatever their
/// equations.
pub fn agreeing_stores_answer_alike()
    ensures nodes { NodesAgree }
    ensures cases { CasesAgree }
    ensures lines { ShownAgree }
    ensures firsts { FirstsAgree }
    ensures needs { NeedsAgree }
    ensures binds { BindsAgree }
    ensures effects { EffectsAgree }
{}

/// One thread alone, with the equations of a site: each name of its effect is one of its stack or of the equations, or
/// fresh; what it waits for, or what is open in its comparison, is a variable of these; environments go on to have a variable
/// at each free position; and nodes are those of the program. What holds of all nodes that the program tells holds of those of an effect, whatever it is: that
/// is a lemma (`stack_nodes`), since it speaks of every property of nodes, and so are its forms for every property of names
/// (`stack_effect_has`, `stack_need_has`).
pub fn threads_are_closed()
    ensures names { EffectsAreNamed }
    ensures waits { NeedsAreNamed }
    ensures opens { OpensAreNamed }
    ensures covered { EffectsAreCovered }
    ensures nodes { EffectsHaveNodes }
{}

/// A step keeps at most one equation for each variable, where its bind goes from a variable that has none.
pub fn binds_from_roots_keep_one_each()
    ensures { EffectsKeepOneEach }
{}

/// Environments of a run have a variable at each free position, so each name that occurs in it was taken by a pick or is
/// that of the first thread. The name that stands where an environment lacks a position occurs nowhere, unless a pick takes
/// it.
pub fn names_are_taken()
    ensures covered { RunsAreCovered }
    ensures taken { NamesAreTaken }
{}

/// The test whether a name occurs in a state fails exactly where the name is new.
pub fn the_test_tells_occurrence()
    ensures new { TestTellsNew }
    ensures occurs { TestTellsOccurs }
{}

/// Worked examples: each is a run to a state at rest, with its lines and its threads.
pub fn worked_runs()
    ensures integer { IntegerIsPrinted }
    ensures failure { FailureIsReported }
    ensures unbound { UnboundIsAwaited }
    ensures atom { AtomIsPrinted }
    ensures upward { AtomIsPrintedToo }
{}

/// Worked examples of picks: one that ends a program, and those that a state does not allow. And of raising.
pub fn worked_picks()
    ensures ends { SkipEnds }
    ensures refused { AreRefused }
    ensures raising { MarksCatch }
{}

/// Worked examples of the other statements: a procedure, a case, a handler, a cell, a port, a thread, exceptions of the system,
/// and tests.
pub fn worked_statements()
    ensures procedure { ProcedureIsCalled }
    ensures matched { FieldIsMatched }
    ensures handler { HandlerHasException }
    ensures exchange { ContentIsExchanged }
    ensures sent { PairIsSent }
    ensures thread { ThreadIsMade }
    ensures overflow { OverflowIsRaised }
    ensures truth { IntegerIsNoTruth }
    ensures equal { SameIsEqual }
    ensures awaited { ComparisonIsAwaited }
{}
