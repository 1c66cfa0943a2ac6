//! What the journal of every run tells of each site, as laws over all runs.

ghost use Rattle.world_journals.specs.Asked.{HomesServeRequests};
ghost use Rattle.world_journals.specs.Homes.{HomesAreAsked};
ghost use Rattle.world_journals.specs.Places.{ThreadsAlwaysStayHome, UnitsAreAlwaysNamed};
ghost use Rattle.world_journals.specs.Requests.{ExchangesAreSplit, RequestsAreServed, TurnsArePaid};

/// Each pick of a turn is an own step of a thread that was placed at the turn's site, or what a message asks for that was delivered
/// there, in that turn or before: a bind, a send, an exchange; and a thread was placed at one site only. It does nothing: its
/// clause is the law.
pub fn threads_stay_home()
    ensures home { ThreadsAlwaysStayHome }
{}

/// The thread of each unit of a turn has its name from one of the sites of the run. It does nothing: its clause is the law.
pub fn units_are_named()
    ensures named { UnitsAreAlwaysNamed }
{}

/// In each turn exchanges pay for the Gets and Forwards that it sends and for a Put that it takes; and so, over each run, at each
/// site for each cell, where the exchanges at the sites are together those of the run. (Of a cell whose state stays there is no
/// such message.) It does nothing: its clauses are the laws.
pub fn requests_are_served()
    ensures turns { TurnsArePaid }
    ensures split { ExchangesAreSplit }
    ensures served { RequestsAreServed }
{}

/// The home of a cell whose state stays serves no exchange of a thread that was placed elsewhere without a request of its own: the steps
/// of that thread which it makes as requests for the cell come, and as it hears of the cell, are no more than its requests for it that
/// came there. It does nothing: its clause is the law.
pub fn homes_serve_requests()
    ensures served { HomesServeRequests }
{}

/// Each exchange that the home of a cell makes for a thread that was placed elsewhere has one request, and is answered once: of each
/// such thread and cell the messages that ask are as many as the exchanges and the requests that are outstanding, and the answers to a thread
/// are as many as its exchanges of cells that stay at other sites. It does nothing: its clause is the law.
pub fn homes_are_asked()
    ensures asked { HomesAreAsked }
{}
