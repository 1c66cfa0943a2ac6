//! What the journal of every run of sites tells of each site: where threads step, and what its requests for tokens cost.
//!
//! For: whoever runs one program over several sites, and reads from the journal which site did what, and what its use of a cell costs.
//!
//! It promises, by `threads_stay_home`: in every run of sites, whatever the order of turns and deliveries, each pick of a turn is an
//! own step of a thread that was placed at the turn's site, or what a message asks for that was delivered there, in that turn or
//! before (a bind, a send to a port, an exchange of a cell whose state stays: `IsRequested`); and no thread was placed at two
//! sites. Where a thread was placed is read from the journal alone (`IsPlacedAt`). And, by `units_are_named`, the thread of each
//! unit of a turn has its name from one of the sites of the run.
//!
//! It promises, by `requests_are_served`, of every run of a program on 1 to 64 sites, whatever the order of turns and deliveries,
//! for every cell and every site, that requests for the token are served one after the other, with few messages each. Of each turn
//! (`IsTurnPaid`): a site that asked for the token exchanges before it asks again, and a site that the token comes to exchanges in
//! that very turn. Of the whole run (`AreRequestsServed`): the Gets for a site, the Forwards that name it and the Puts to it are
//! each no more than its exchanges, and one more while a request of it is outstanding. So each request takes at most one Get, one
//! Forward and one Put, and is followed by an exchange at its site or is that site's one outstanding request. The exchanges at the
//! sites are together those of the run (`ExchangesAreSplit`).
//!
//! It promises, by `homes_serve_requests`, of every run of sites and every cell whose state stays: of a thread that was placed
//! elsewhere the cell's home makes no more steps, as requests for the cell come and as it hears of the cell, than requests of that
//! thread for the cell came there (`served_at_home`, `asked_at_home`). So no request is served twice.
//!
//! It promises, by `homes_are_asked`, of every run of a program on 1 to 64 sites and every cell whose state stays: each exchange that
//! the home makes for a thread that was placed elsewhere has one request of that thread for that cell, and each such request was
//! followed by an exchange or is outstanding; a thread of the home asks by no message; and a thread is sent one answer for each of
//! its exchanges of cells that stay elsewhere (`AreHomesAsked`).
//!
//! It stands on `world_simulation`, on lemmas of `world_messages`, and on those of `world_cells`, whose bound over all sites holds
//! whatever was sent before: a turn is weighed behind the most that could have been sent. It has no code, and no tests.
//!
//! Sources: Van Roy and Haridi, *Concepts, Techniques, and Models of Computer Programming*, section 4.1 (threads; that a thread has a
//! site is of this project); Van Roy and others, *Mobile Objects in Distributed Oz* (TOPLAS 19(5), 1997).
#![tactic(auto)]

mod laws;

pub use laws::{
    homes_are_asked, homes_serve_requests, requests_are_served, threads_stay_home, units_are_named,
};
