// Worked lists of calls of the protocol of variables.

ghost use Rattle.std.specs.Prelude.{◌≡◌, ◌↔◌, IsTrue};
ghost use Rattle.tree_node.specs.declared.node.Node.TheVariants as node;
ghost use Rattle.tree_node.specs.declared.node.Term.TheVariants as term;
ghost use Rattle.bind_protocol.specs.World.{IsSiteOf};

use bind_protocol::laws::BindWorld;
use bind_protocol::{Binder, Knowledge, Want};
use proxy_table::Met;
use site_message::{DeliverError, Msg, Outbox, Sent};
use std::alloc::{AllocError, Global};
use std::process::Abort;
use std::test::Fail;
use tree_node::{Integer, Node, Term, ThreadName, VarName};
use variable_owner::Asked;

// The first variable of site 1, and the first of site 2.
const X: VarName = VarName { site: 1, num: 0 };

const Y: VarName = VarName { site: 2, num: 0 };

fn int(value: i128) -> Term
    ensures { result ≡ term.Node (node.Int value) }
{
    Term::Node(Node::Int(Integer::new(value)))
}

fn thread(site: u32) -> ThreadName {
    ThreadName { site, num: 0 }
}

// The integer that a term is.
fn int_of(term: &Term) -> Option<i128> {
    match term {
        Term::Node(Node::Int(value)) => Some(value.get()),
        _ => None,
    }
}

// Whether a message is a Binding of X to the integer 5, for this site.
fn tells_five(sent: &Sent, site: u32) -> bool {
    match &sent.msg {
        Msg::Binding { var, term, bundle } => {
            sent.to == site && *var == X && int_of(term) == Some(5) && bundle.as_slice().is_empty()
        }
        _ => false,
    }
}

// A request for X comes to its owner.
fn ask(owner: &mut Binder, value: i128, outbox: &mut Outbox) -> Result<Option<Asked>, AllocError> {
    if !owner.takes(&Msg::Register { var: X, asking: 64 }) {
        return Ok(None);
    }
    let asked = owner.on_ask(X, int(value), outbox)?;
    Ok(Some(asked))
}

// A registration for X comes to its owner.
fn register(owner: &mut Binder, asking: u32, outbox: &mut Outbox) -> Result<bool, AllocError> {
    if !owner.takes(&Msg::Register { var: X, asking }) {
        return Ok(false);
    }
    owner.on_register(X, asking, outbox)?;
    Ok(true)
}

// A site meets X, which is another's.
fn meets(site: &mut Binder, outbox: &mut Outbox) -> Result<Option<Met>, AllocError> {
    if site.owns(X) {
        return Ok(None);
    }
    let met = site.meet(X, outbox)?;
    Ok(Some(met))
}

// Site 2, which knows X unbound, asks for 5.
fn asks_for_five(asker: &mut Binder, outbox: &mut Outbox) -> Result<bool, AllocError> {
    match asker.knows(X) {
        Knowledge::Unbound => (),
        _ => return Ok(false),
    }
    Ok(asker.want(X, int(5), thread(2), outbox)? == Want::Sent)
}

fn registers_once<R: Abort>(
    rt: &R,
    asker: &mut Binder,
    outbox: &mut Outbox,
) -> Result<(), AllocError> {
    assert!(rt; meets(asker, outbox)? == Some(Met::New));
    assert!(rt; meets(asker, outbox)? == Some(Met::Known));
    assert!(rt; asks_for_five(asker, outbox)?);
    assert_eq!(rt; outbox.len(), 2);
    Ok(())
}

#[test]
fn a_site_registers_once_and_sends_its_request(rt: HostRuntime) -> Result<(), Fail> {
    let mut asker = Binder::new(rt.alloc(), 2);
    let mut outbox = Outbox::new(rt.alloc());
    registers_once(&rt, &mut asker, &mut outbox)?;
    Ok(())
}

// A site that knows nothing of X, which is another's, meets it with its term.
fn meets_bound(site: &mut Binder) -> Result<Option<Met>, AllocError> {
    match site.knows(X) {
        Knowledge::Nothing if !site.owns(X) => (),
        _ => return Ok(None),
    }
    let met = site.meet_bound(X, int(5))?;
    Ok(Some(met))
}

// The integer that a site knows X to be bound to.
fn known_value(site: &Binder) -> Option<i128> {
    match site.knows(X) {
        Knowledge::Bound(term) => int_of(term),
        _ => None,
    }
}

fn knows_it<R: Abort>(rt: &R, site: &mut Binder, outbox: &mut Outbox) -> Result<(), AllocError> {
    assert!(rt; meets_bound(site)? == Some(Met::New));
    assert!(rt; meets(site, outbox)? == Some(Met::Known));
    assert_eq!(rt; outbox.len(), 0);
    assert_eq!(rt; known_value(site), Some(5));
    Ok(())
}

// A bundle told X with its term: nobody is asked for it.
#[test]
fn a_name_that_is_met_with_its_term_is_not_registered(rt: HostRuntime) -> Result<(), Fail> {
    let mut site = Binder::new(rt.alloc(), 2);
    let mut outbox = Outbox::new(rt.alloc());
    knows_it(&rt, &mut site, &mut outbox)?;
    Ok(())
}

// 5 is asked for, and is taken.
fn takes_five(owner: &mut Binder, answers: &mut Outbox) -> Result<bool, AllocError> {
    Ok(ask(owner, 5, answers)? == Some(Asked::Taken))
}

// The owner of X makes it, unless it is made.
fn makes_x(owner: &mut Binder) -> Result<bool, AllocError> {
    match owner.knows(X) {
        Knowledge::Nothing if owner.owns(X) => (),
        _ => return Ok(false),
    }
    owner.make(X)?;
    Ok(true)
}

fn is_late_behind_five<R: Abort>(
    rt: &R,
    owner: &mut Binder,
    answers: &mut Outbox,
) -> Result<(), AllocError> {
    assert!(rt; makes_x(owner)?);
    assert!(rt; takes_five(owner, answers)?);
    assert!(rt; ask(owner, 6, answers)? == Some(Asked::Late));
    assert_eq!(rt; answers.len(), 0);
    Ok(())
}

#[test]
fn a_second_request_is_late(rt: HostRuntime) -> Result<(), Fail> {
    let mut owner = Binder::new(rt.alloc(), 1);
    let mut answers = Outbox::new(rt.alloc());
    is_late_behind_five(&rt, &mut owner, &mut answers)?;
    Ok(())
}

// A site registers for X, which is bound, and the last of so many answers tells it so.
fn is_answered(
    owner: &mut Binder,
    asking: u32,
    answers: &mut Outbox,
    count: usize,
) -> Result<bool, AllocError> {
    if !register(owner, asking, answers)? || answers.len() != count {
        return Ok(false);
    }
    match answers.as_slice() {
        [.., last] => Ok(tells_five(last, asking)),
        [] => Ok(false),
    }
}

fn are_answered<R: Abort>(
    rt: &R,
    owner: &mut Binder,
    answers: &mut Outbox,
) -> Result<(), AllocError> {
    assert!(rt; makes_x(owner)?);
    assert!(rt; takes_five(owner, answers)?);
    assert!(rt; is_answered(owner, 2, answers, 1)?);
    assert!(rt; is_answered(owner, 3, answers, 2)?);
    Ok(())
}

#[test]
fn a_registration_behind_the_binding_is_answered(rt: HostRuntime) -> Result<(), Fail> {
    let mut owner = Binder::new(rt.alloc(), 1);
    let mut answers = Outbox::new(rt.alloc());
    are_answered(&rt, &mut owner, &mut answers)?;
    Ok(())
}

fn counts_registrations<R: Abort>(
    rt: &R,
    owner: &mut Binder,
    answers: &mut Outbox,
) -> Result<(), AllocError> {
    assert!(rt; makes_x(owner)?);
    assert!(rt; !owner.has_registered());
    assert!(rt; register(owner, 2, answers)?);
    assert!(rt; owner.has_registered());
    assert!(rt; takes_five(owner, answers)?);
    assert!(rt; !owner.has_registered());
    Ok(())
}

// A registration is kept until its variable is bound.
#[test]
fn an_owner_knows_whether_a_site_is_registered(rt: HostRuntime) -> Result<(), Fail> {
    let mut owner = Binder::new(rt.alloc(), 1);
    let mut answers = Outbox::new(rt.alloc());
    counts_registrations(&rt, &mut owner, &mut answers)?;
    Ok(())
}

// What a call on a world requires is tested. Each answers whether the call was made.
fn is_site(world: &BindWorld, site: u32) -> bool
    ensures { IsTrue result ↔ IsSiteOf world.now site }
{
    site >= 1 && site as usize <= world.sites()
}

fn make(world: &mut BindWorld, var: VarName) -> Result<bool, AllocError> {
    if !is_site(world, var.site) {
        return Ok(false);
    }
    match world.knows(var.site, var) {
        Knowledge::Nothing => (),
        _ => return Ok(false),
    }
    world.make(var.site, var)?;
    Ok(true)
}

fn meet(world: &mut BindWorld, site: u32, var: VarName) -> Result<bool, AllocError> {
    if !is_site(world, site) || !is_site(world, var.site) {
        return Ok(false);
    }
    match world.knows(var.site, var) {
        Knowledge::Nothing => return Ok(false),
        _ => (),
    }
    world.meet(site, var)?;
    Ok(true)
}

fn want_int(
    world: &mut BindWorld,
    site: u32,
    var: VarName,
    value: i128,
) -> Result<bool, AllocError> {
    if !is_site(world, site) {
        return Ok(false);
    }
    match world.knows(site, var) {
        Knowledge::Unbound => (),
        _ => return Ok(false),
    }
    world.want(site, var, int(value), thread(site))?;
    Ok(true)
}

// The integer that a site knows a variable to be bound to.
fn value_at(world: &BindWorld, site: u32, var: VarName) -> Option<i128> {
    if !is_site(world, site) {
        return None;
    }
    match world.knows(site, var) {
        Knowledge::Bound(term) => int_of(term),
        _ => None,
    }
}

fn delivers(world: &mut BindWorld, place: usize, count: usize) -> bool {
    world.deliver(place).is_ok() && world.travelling().len() == count
}

fn delivers_none(world: &mut BindWorld, place: usize) -> bool {
    world.deliver(place) == Err(DeliverError::NotThere)
}

fn tells_only(world: &BindWorld, site: u32) -> bool {
    match world.travelling() {
        [only] => tells_five(only, site),
        _ => false,
    }
}

// A call on a world with its answer, or what is seen of it then.
#[derive(Clone, Copy)]
enum Step {
    // The site of a variable makes it: whether that can be.
    Makes(VarName, bool),
    // A site meets a variable: whether that can be.
    Meets(u32, VarName, bool),
    // A site asks for X to be an integer.
    Wants(u32, i128),
    // The message of a place is delivered, and so many travel then.
    Delivers(usize, usize),
    DeliversNone(usize),
    Travel(usize),
    // A site knows X to be this integer, or none.
    Knows(u32, Option<i128>),
    // The one message on its way tells a site that X is 5.
    TellsOnly(u32),
}

fn is_so(world: &mut BindWorld, step: Step) -> Result<bool, AllocError> {
    match step {
        Step::Makes(var, can) => Ok(make(world, var)? == can),
        Step::Meets(site, var, can) => Ok(meet(world, site, var)? == can),
        Step::Wants(site, value) => want_int(world, site, X, value),
        Step::Delivers(place, count) => Ok(delivers(world, place, count)),
        Step::DeliversNone(place) => Ok(delivers_none(world, place)),
        Step::Travel(count) => Ok(world.travelling().len() == count),
        Step::Knows(site, value) => Ok(value_at(world, site, X) == value),
        Step::TellsOnly(site) => Ok(tells_only(world, site)),
    }
}

// Site 1 makes X, and site 2 meets it and asks for 5. The request comes before the Register, and nothing is sent. Site 3
// comes too late with its request, and learns the binding by its registration.
static STEPS: [Step; 26] = [
    Step::DeliversNone(0),
    Step::Makes(X, true),
    Step::Makes(X, false),
    Step::Meets(2, Y, false),
    Step::Meets(2, X, true),
    Step::Meets(2, X, true),
    Step::Travel(1),
    Step::Wants(2, 5),
    Step::Travel(2),
    Step::DeliversNone(2),
    Step::Delivers(1, 1),
    Step::Knows(1, Some(5)),
    Step::Knows(2, None),
    Step::Delivers(0, 1),
    Step::TellsOnly(2),
    Step::Delivers(0, 0),
    Step::Knows(2, Some(5)),
    Step::Meets(3, X, true),
    Step::Wants(3, 6),
    Step::Delivers(1, 1),
    Step::Knows(1, Some(5)),
    Step::Delivers(0, 1),
    Step::TellsOnly(3),
    Step::Delivers(0, 0),
    Step::Knows(3, Some(5)),
    Step::DeliversNone(0),
];

fn goes_so<R: Abort>(rt: &R, world: &mut BindWorld) -> Result<(), AllocError> {
    for (at, step) in STEPS.iter().enumerate() {
        assert!(rt; is_so(world, *step)?, "at {at}");
    }
    Ok(())
}

#[test]
fn a_world_delivers_requests_and_registrations_in_any_order(rt: HostRuntime) -> Result<(), Fail> {
    let mut world = BindWorld::new(rt.alloc(), 3)?;
    goes_so(&rt, &mut world)?;
    Ok(())
}
