//! Units and messages keep a world joined with the machine, whatever they are on.

ghost use Rattle.world_answers.specs.AnswerCounts.{FewAnswersInFitRuns};
ghost use Rattle.world_answers.specs.Balance.{RequestsBalanceInFitRuns};
ghost use Rattle.world_answers.specs.FitRuns.{FitRunsAreSimulated, FewInFitRuns};
ghost use Rattle.world_answers.specs.Laws.{UnitsAreJoined, MessagesAreJoined, LettersAreTaken};

/// Each unit of a thread, and each message that its site can take, is a run of the machine, which the sites match afterwards: threads
/// that wait for an answer have one request or answer, and the ends of ports and the contents of stationary cells are kept.
/// And its site can take each request, each answer, and what tells it of a cell.
pub fn rows_are_joined()
    ensures units { UnitsAreJoined }
    ensures messages { MessagesAreJoined }
    ensures letters { LettersAreTaken }
{}

/// Whatever the order of turns and deliveries, and whatever the bundles: a run in which each delivered message is fit for its
/// site is a run of the centralised machine, whose state the sites match; the messages of a mobile cell that were sent are at most
/// three for each exchange of it and each site; and answers are at most as many as the sends to ports and the exchanges of stationary
/// cells, and requests at most as many as answers and threads that wait for one. And of each thread and each stationary cell: what it
/// asked the home for was exchanged or is outstanding, and what the home exchanged for it was asked for, once, and is answered once.
pub fn fit_runs_are_simulated()
    ensures simulated { FitRunsAreSimulated }
    ensures few { FewInFitRuns }
    ensures answers { FewAnswersInFitRuns }
    ensures balance { RequestsBalanceInFitRuns }
{}
