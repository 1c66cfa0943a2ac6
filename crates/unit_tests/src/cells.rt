// Worked lists of calls of the cell protocol.

use cell_manager::{Forward, Manager};
use site_message::DeliverError;
use std::alloc::{AllocError, Global};
use std::process::Abort;
use std::test::Fail;
use token_chain::laws::CellWorld;
use token_chain::{Ask, CellSite};
use tree_node::VarName;

fn var(num: u64) -> VarName {
    VarName { site: 1, num }
}

// A call of a site or of the manager, and what it answers.
#[derive(Clone, Copy)]
enum Call {
    Asks(usize, Ask),
    Gets(u32, u32),
    Forwards(usize, u32),
    Leaves(usize, Option<(u32, u64)>),
    Puts(usize, u64),
    Swaps(usize, u64, u64),
}

fn ask_site(site: &mut CellSite, want: Ask) -> bool {
    site.state().waiting < 1 << 59 && site.ask() == want
}

fn get(manager: &mut Manager, from: u32, to: u32) -> bool {
    manager.on_get(from) == Forward { to, next: from }
}

fn forward(site: &mut CellSite, next: u32) -> bool {
    let state = site.state();
    if state.next.is_some() || !(state.here || state.asked) {
        return false;
    }
    site.on_forward(next);
    true
}

fn leave(site: &mut CellSite, want: Option<(u32, u64)>) -> bool {
    match (site.leave(), want) {
        (Some((to, content)), Some((next, num))) => to == next && content == var(num),
        (None, None) => true,
        _ => false,
    }
}

fn put(site: &mut CellSite, num: u64) -> bool {
    if !site.state().asked {
        return false;
    }
    site.on_put(var(num));
    true
}

fn swap(site: &mut CellSite, new: u64, old: u64) -> bool {
    let state = site.state();
    state.here && state.waiting > 0 && site.swap(var(new)) == var(old)
}

// Whether the call can be made, and is answered so. Sites 1 to 3 stand at places 0 to 2.
fn make_call(manager: &mut Manager, sites: &mut [CellSite], call: Call) -> bool {
    let place = match call {
        Call::Gets(from, to) => return get(manager, from, to),
        Call::Asks(at, _) | Call::Forwards(at, _) | Call::Leaves(at, _) => at,
        Call::Puts(at, _) | Call::Swaps(at, _, _) => at,
    };
    let Some(site) = sites.get_mut(place) else {
        return false;
    };
    match call {
        Call::Asks(_, want) => ask_site(site, want),
        Call::Gets(_, _) => false,
        Call::Forwards(_, next) => forward(site, next),
        Call::Leaves(_, want) => leave(site, want),
        Call::Puts(_, num) => put(site, num),
        Call::Swaps(_, new, old) => swap(site, new, old),
    }
}

// The token is with site 1 first. It goes to site 3, to site 2, and to site 3 again, where two threads wait.
static ALONG: [Call; 22] = [
    Call::Asks(2, Ask::SendGet),
    Call::Gets(3, 1),
    Call::Forwards(0, 3),
    Call::Leaves(0, Some((3, 0))),
    Call::Asks(1, Ask::SendGet),
    Call::Gets(2, 3),
    Call::Forwards(2, 2),
    Call::Leaves(2, None),
    Call::Puts(2, 0),
    Call::Swaps(2, 1, 0),
    Call::Leaves(2, Some((2, 1))),
    Call::Puts(1, 1),
    Call::Swaps(1, 2, 1),
    Call::Leaves(1, None),
    Call::Asks(2, Ask::SendGet),
    Call::Asks(2, Ask::Already),
    Call::Gets(3, 2),
    Call::Forwards(1, 3),
    Call::Leaves(1, Some((3, 2))),
    Call::Puts(2, 2),
    Call::Swaps(2, 3, 2),
    Call::Swaps(2, 4, 3),
];

#[test]
fn the_token_goes_along_the_askers(rt: HostRuntime) {
    let mut manager = Manager::new(1);
    let mut sites = [
        CellSite::new_here(var(0)),
        CellSite::away(),
        CellSite::away(),
    ];
    for (at, call) in ALONG.iter().enumerate() {
        assert!(rt;
            make_call(&mut manager, sites.as_mut_slice(), *call),
            "at {at}"
        );
    }
    assert!(rt; sites[2].state().here && sites[0].state().next.is_none());
}

// What `CellWorld::ask` answers; none where the site is not one of the world's, or too many threads wait there.
fn ask_world(world: &mut CellWorld, site: u32, new: VarName) -> Result<Option<Ask>, AllocError> {
    if site == 0 || site as usize > world.sites() || world.waiting(site) >= 1 << 60 {
        return Ok(None);
    }
    let answer = world.ask(site, new)?;
    Ok(Some(answer))
}

#[derive(Clone, Copy)]
enum Event {
    Asks(u32, u64, Ask),
    Delivers(usize),
    DeliversForward,
}

// Whether the event can be, and is answered so. The Forward to site 3 is delivered from `place`.
fn make_event(world: &mut CellWorld, event: Event, place: usize) -> Result<bool, AllocError> {
    match event {
        Event::Asks(site, num, want) => Ok(ask_world(world, site, var(num))? == Some(want)),
        Event::Delivers(at) => Ok(world.deliver(at).is_ok()),
        Event::DeliversForward => Ok(world.deliver(place).is_ok()),
    }
}

// The worked row.
static EVENTS: [Event; 12] = [
    Event::Asks(3, 1, Ask::SendGet),
    Event::Delivers(0),
    Event::Asks(2, 2, Ask::SendGet),
    Event::Delivers(1),
    Event::DeliversForward,
    Event::Delivers(0),
    Event::Delivers(0),
    Event::Asks(3, 3, Ask::SendGet),
    Event::Asks(3, 4, Ask::Already),
    Event::Delivers(0),
    Event::Delivers(0),
    Event::Delivers(0),
];

// The Forward to site 3 comes at `place` beside its Put.
fn run_events<R: Abort>(rt: &R, world: &mut CellWorld, place: usize) -> Result<(), AllocError> {
    for (at, event) in EVENTS.iter().enumerate() {
        assert!(rt; make_event(world, *event, place)?, "at {at}");
    }
    Ok(())
}

fn expect_exchanges<R: Abort>(rt: &R, world: &CellWorld) {
    assert_eq!(rt; world.exchanges().len(), 4);
    for (at, pair) in world.exchanges().iter().enumerate() {
        let num = at as u64;
        assert!(rt; *pair == (var(num), var(num + 1)), "at {at}");
    }
    assert!(rt; world.served() == [3, 2, 3, 3].as_slice());
    assert!(rt; world.travelling().is_empty());
}

fn delivers_none<R: Abort>(rt: &R, world: &mut CellWorld) {
    assert!(rt; world.deliver(0) == Err(DeliverError::NotThere));
}

#[test]
fn a_forward_before_or_after_its_put_makes_the_same_exchanges(rt: HostRuntime) -> Result<(), Fail> {
    for place in [1, 0] {
        let mut world = CellWorld::new(rt.alloc(), 3, 1, var(0))?;
        delivers_none(&rt, &mut world);
        run_events(&rt, &mut world, place)?;
        expect_exchanges(&rt, &world);
        delivers_none(&rt, &mut world);
    }
    Ok(())
}
