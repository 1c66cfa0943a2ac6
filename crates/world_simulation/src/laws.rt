//! The simulation, as laws over all runs.

ghost use Rattle.world_simulation.specs.Answers.{AnswersAlwaysHold, RequestsAlwaysBalance};
ghost use Rattle.world_simulation.specs.Distributed.{RunsTakeRows};
ghost use Rattle.world_simulation.specs.Messages.{MessagesAreFew, RequestsAreSingle, CellRequestsArePaid, AnswerMessagesAreFew, AllMessagesAreFew};
ghost use Rattle.world_simulation.specs.Protocols.{ProtocolsAlwaysHold};
ghost use Rattle.world_simulation.specs.Simulation.{EveryRunIsSimulated, DeliveredMessagesAreFit, CellMessagesAreFew};
ghost use Rattle.world_simulation.specs.Stays.{EquationsStay};

/// Every run of a program on 1 to 64 sites, whatever the order of turns and deliveries, is a run of the centralised machine: the
/// picks of its journal lead that machine to a state that the sites match. Where the run is quiet the machine rests, with the
/// ended and waiting threads that the sites told last. Each message that travels is fit for the site that it goes to, and each
/// that was delivered was. It does nothing: its clauses are the law.
pub fn sites_are_simulated()
    ensures simulated { EveryRunIsSimulated }
    ensures fit { DeliveredMessagesAreFit }
{}

/// The runs of a program over its sites in which each delivered message takes its row are those in which an unfit message changes
/// nothing, by the law that no delivered message is unfit. It does nothing: its clause is the law.
pub fn runs_take_rows()
    ensures rows { RunsTakeRows }
{
    sites_are_simulated();
}

/// Between the entries of every run the protocols' invariants hold of the sites and of the messages that travel: those of variables
/// and of cells whose state moves, and those of ports and of cells whose state stays, with the threads that wait for answers. What a
/// thread asked the homes of such cells for balances with what they exchanged for it, and with their answers. And
/// what a site knows stays known, whatever its next turn does.
pub fn protocols_hold()
    ensures holds { ProtocolsAlwaysHold }
    ensures answers { AnswersAlwaysHold }
    ensures asked { RequestsAlwaysBalance }
    ensures stays { EquationsStay }
{}

/// How many messages a run sends at most: those on variables and threads by the variables and threads that its schedule makes,
/// those of a cell by its exchanges; those of ports and of cells whose state stays by sends, exchanges, cells and threads; and all of
/// them together. A thread asks once at most to bind a variable; and the requests
/// for the token of each cell were followed by exchanges, but for those outstanding. (`registers_are_few` of `world_messages` says
/// that a site registers once at most for a variable, and is told once at most.)
pub fn messages_are_few()
    ensures single { RequestsAreSingle }
    ensures paid { CellRequestsArePaid }
    ensures few { MessagesAreFew }
    ensures cells { CellMessagesAreFew }
    ensures answers { AnswerMessagesAreFew }
    ensures all { AllMessagesAreFew }
{}
