//! Bytes as messages.

ghost use Rattle.std.specs.Prelude.{◌≡◌, ◌⊎◌, IfOk, IfErr, Ok, Err};
ghost use Rattle.site_message.specs.Wire.{FitsWire};
ghost use Rattle.site_message.specs.declared.message.Msg.{Msg as AMessage};
ghost use Rattle.wire_reader.specs.declared.fault.WireFault.TheVariants.{Memory, Rest};
ghost use Rattle.wire_reader.specs.declared.fault.WireFault.{WireFault as AFault};
ghost use Rattle.wire_reader.specs.declared.form.Form.{Form as AForm};
ghost use Rattle.byte_fields.specs.Reading.{IsReadAsWhole};
ghost use Rattle.wire_reader.specs.Format.{IsSpelling, IsFirstFault};
ghost use Rattle.tree_node.specs.Store.{Equation};
ghost use Rattle.tree_node.specs.declared.names.VarName.{VarName as AVarName};
ghost use Rattle.tree_node.specs.declared.node.Feature.{Feature as AFeature};
ghost use Rattle.wire_reader.specs.Reading.{IsReadAs, is_above, feature_below, name_below, field_at, fields_at, variables_at, record_at, procedure_at, later_node_at, node_at, term_at, equation_at, bundle_at, spawn_at, register_at, bind_request_at, binding_at, get_at, forward_at, put_at, port_send_at, port_end_at, cell_make_at, cell_ask_at, cell_old_at, later_body_at, body_at, message_at};

use crate::fault::WireFault;
use crate::form::Form;
use crate::names::{
    cell_name, code, feature, port_name, proc_name, stationary_name, text, thread_name, var_name,
};
use crate::numbers::{byte, byte_within, integer, number_16};
use byte_fields::Cursor;
use site_message::{Bundle, Msg};
use std::alloc::Global;
use std::cmp::Ordering;
use tree_node::{
    Feature, Fields, Integer, MOST_ITEMS, MOST_SITES, Node, Shared, Term, VarName, Vars,
    compare_features, is_below,
};

// Whether a feature is above that of the last field.
#[tactic(auto, using(crate::proofs::OrderLaws::above_some, crate::proofs::OrderLaws::above_none))]
fn is_feature_above(front: &[(Feature, VarName)], feature: &Feature) -> bool
    ensures { result ≡ is_above (λ (x : AFeature × AVarName). x.0) feature_below front.now feature.now }
{
    match front.last() {
        Some(last) => compare_features(&last.0, feature) == Ordering::Less,
        None => true,
    }
}

// A field of a record, behind those before it.
#[tactic(auto, unfolding(crate::specs::Reading::field_at))]
fn field(
    alloc: Global,
    form: Form,
    cursor: &mut Cursor,
    front: &[(Feature, VarName)],
) -> Result<(Feature, VarName), WireFault>
    ensures { IsReadAs (field_at form front.now) cursor.old cursor.new result }
{
    let at = cursor.place();
    let feature = feature(alloc, form, cursor)?;
    if !is_feature_above(front, &feature) {
        return Err(WireFault::Order(at));
    }
    let var = var_name(cursor)?;
    Ok((feature, var))
}

// The fields of a record.
#[tactic(auto, unfolding(crate::specs::Reading::fields_at))]
fn fields(alloc: Global, form: Form, cursor: &mut Cursor) -> Result<Fields, WireFault>
    ensures { IsReadAs (fields_at form) cursor.old cursor.new result }
{
    let count = byte_within(cursor, 1, MOST_ITEMS as u8)?;
    let mut items = Vec::with_capacity(alloc, cursor.len().min(count as usize))?;
    for _ in 0..count {
        let next = field(alloc, form, cursor, &items)?;
        items.push(next)?;
    }
    Ok(Shared::from_vec(items)?)
}

// A list of variables.
#[tactic(auto, unfolding(crate::specs::Reading::variables_at))]
fn variables(alloc: Global, cursor: &mut Cursor) -> Result<Vars, WireFault>
    ensures { IsReadAs variables_at cursor.old cursor.new result }
{
    let count = number_16(cursor)?;
    let mut items = Vec::with_capacity(alloc, cursor.len().min(count as usize))?;
    for _ in 0..count {
        let next = var_name(cursor)?;
        items.push(next)?;
    }
    Ok(Shared::from_vec(items)?)
}

// A record.
#[tactic(auto, unfolding(crate::specs::Reading::record_at))]
fn tree(alloc: Global, form: Form, cursor: &mut Cursor) -> Result<Term, WireFault>
    ensures { IsReadAs (record_at form) cursor.old cursor.new result }
{
    let label = text(alloc, cursor)?;
    let fields = fields(alloc, form, cursor)?;
    Ok(Term::Node(Node::Rec(label, fields)))
}

// A procedure.
#[tactic(auto, unfolding(crate::specs::Reading::procedure_at))]
fn procedure(alloc: Global, cursor: &mut Cursor) -> Result<Term, WireFault>
    ensures { IsReadAs procedure_at cursor.old cursor.new result }
{
    let name = proc_name(cursor)?;
    let code = code(cursor)?;
    let formals = byte_within(cursor, 0, MOST_ITEMS as u8)?;
    let vars = variables(alloc, cursor)?;
    Ok(Term::Node(Node::Proc(formals, code, name, vars)))
}

// What follows a tag above 05, which stands at the place: that of a port or of a stationary cell, which form 2 alone has.
#[tactic(auto, unfolding(crate::specs::Reading::later_node_at))]
fn later_node(form: Form, at: usize, tag: u8, cursor: &mut Cursor) -> Result<Term, WireFault>
    ensures { IsReadAs (later_node_at form at tag) cursor.old cursor.new result }
{
    match form {
        Form::One => Err(WireFault::Kind(at)),
        Form::Two => match tag {
            6 => Ok(Term::Node(Node::Port(port_name(cursor)?))),
            7 => Ok(Term::Node(Node::Cell(stationary_name(cursor)?))),
            _ => Err(WireFault::Kind(at)),
        },
    }
}

// What follows the tag of a term, which stands at the place.
#[tactic(auto, unfolding(crate::specs::Reading::node_at))]
fn node(
    alloc: Global,
    form: Form,
    at: usize,
    tag: u8,
    cursor: &mut Cursor,
) -> Result<Term, WireFault>
    ensures { IsReadAs (node_at form at tag) cursor.old cursor.new result }
{
    match tag {
        0 => Ok(Term::Var(var_name(cursor)?)),
        1 => Ok(Term::Node(Node::Int(Integer::new(integer(cursor, form)?)))),
        2 => Ok(Term::Node(Node::Atom(text(alloc, cursor)?))),
        3 => tree(alloc, form, cursor),
        4 => procedure(alloc, cursor),
        5 => Ok(Term::Node(Node::Cell(cell_name(cursor)?))),
        _ => later_node(form, at, tag, cursor),
    }
}

// A term.
#[tactic(auto, unfolding(crate::specs::Reading::term_at))]
fn term(alloc: Global, form: Form, cursor: &mut Cursor) -> Result<Term, WireFault>
    ensures { IsReadAs (term_at form) cursor.old cursor.new result }
{
    let at = cursor.place();
    let tag = byte(cursor)?;
    node(alloc, form, at, tag, cursor)
}

// Whether a name is above that of the last equation.
#[tactic(auto, using(crate::proofs::OrderLaws::above_some, crate::proofs::OrderLaws::above_none))]
fn is_name_above(front: &[(VarName, Term)], var: VarName) -> bool
    ensures { result ≡ is_above (λ (e : Equation). e.0) name_below front.now var }
{
    match front.last() {
        Some(last) => is_below(last.0, var),
        None => true,
    }
}

// An equation of a bundle, behind those before it.
#[tactic(auto, unfolding(crate::specs::Reading::equation_at))]
fn equation(
    alloc: Global,
    form: Form,
    cursor: &mut Cursor,
    front: &[(VarName, Term)],
) -> Result<(VarName, Term), WireFault>
    ensures { IsReadAs (equation_at form front.now) cursor.old cursor.new result }
{
    let at = cursor.place();
    let var = var_name(cursor)?;
    if !is_name_above(front, var) {
        return Err(WireFault::Order(at));
    }
    let term = term(alloc, form, cursor)?;
    Ok((var, term))
}

// A bundle.
#[tactic(auto, unfolding(crate::specs::Reading::bundle_at))]
fn bundle(alloc: Global, form: Form, cursor: &mut Cursor) -> Result<Bundle, WireFault>
    ensures { IsReadAs (bundle_at form) cursor.old cursor.new result }
{
    let at = cursor.place();
    let count = number_16(cursor)?;
    if count > 256 {
        return Err(WireFault::Range(at));
    }
    let mut items = Vec::new(alloc);
    for _ in 0..count {
        let next = equation(alloc, form, cursor, &items)?;
        items.push(next)?;
    }
    Ok(Bundle::from_vec(items)?)
}

// A start of a thread.
#[tactic(auto, unfolding(crate::specs::Reading::spawn_at))]
fn spawn(alloc: Global, form: Form, cursor: &mut Cursor) -> Result<Msg, WireFault>
    ensures { IsReadAs (spawn_at form) cursor.old cursor.new result }
{
    let thread = thread_name(cursor)?;
    let code = code(cursor)?;
    let vars = variables(alloc, cursor)?;
    let bundle = bundle(alloc, form, cursor)?;
    Ok(Msg::Spawn {
        thread,
        code,
        vars,
        bundle,
    })
}

// A registration.
#[tactic(auto, unfolding(crate::specs::Reading::register_at))]
fn register(cursor: &mut Cursor) -> Result<Msg, WireFault>
    ensures { IsReadAs register_at cursor.old cursor.new result }
{
    let var = var_name(cursor)?;
    let asking = byte_within(cursor, 1, MOST_SITES as u8)? as u32;
    Ok(Msg::Register { var, asking })
}

// A request of a bind.
#[tactic(auto, unfolding(crate::specs::Reading::bind_request_at))]
fn bind_request(alloc: Global, form: Form, cursor: &mut Cursor) -> Result<Msg, WireFault>
    ensures { IsReadAs (bind_request_at form) cursor.old cursor.new result }
{
    let var = var_name(cursor)?;
    let thread = thread_name(cursor)?;
    let term = term(alloc, form, cursor)?;
    let bundle = bundle(alloc, form, cursor)?;
    Ok(Msg::BindReq {
        var,
        thread,
        term,
        bundle,
    })
}

// A binding.
#[tactic(auto, unfolding(crate::specs::Reading::binding_at))]
fn binding(alloc: Global, form: Form, cursor: &mut Cursor) -> Result<Msg, WireFault>
    ensures { IsReadAs (binding_at form) cursor.old cursor.new result }
{
    let var = var_name(cursor)?;
    let term = term(alloc, form, cursor)?;
    let bundle = bundle(alloc, form, cursor)?;
    Ok(Msg::Binding { var, term, bundle })
}

// A request of a cell's token.
#[tactic(auto, unfolding(crate::specs::Reading::get_at))]
fn get(cursor: &mut Cursor) -> Result<Msg, WireFault>
    ensures { IsReadAs get_at cursor.old cursor.new result }
{
    let cell = cell_name(cursor)?;
    let asking = byte_within(cursor, 1, MOST_SITES as u8)? as u32;
    Ok(Msg::Get { cell, asking })
}

// Where a cell's token is to go.
#[tactic(auto, unfolding(crate::specs::Reading::forward_at))]
fn forward(cursor: &mut Cursor) -> Result<Msg, WireFault>
    ensures { IsReadAs forward_at cursor.old cursor.new result }
{
    let cell = cell_name(cursor)?;
    let next = byte_within(cursor, 1, MOST_SITES as u8)? as u32;
    Ok(Msg::Forward { cell, next })
}

// A cell's token.
#[tactic(auto, unfolding(crate::specs::Reading::put_at))]
fn put(alloc: Global, form: Form, cursor: &mut Cursor) -> Result<Msg, WireFault>
    ensures { IsReadAs (put_at form) cursor.old cursor.new result }
{
    let cell = cell_name(cursor)?;
    let content = var_name(cursor)?;
    let bundle = bundle(alloc, form, cursor)?;
    Ok(Msg::Put {
        cell,
        content,
        bundle,
    })
}

// A request of a thread to a port.
#[tactic(auto, unfolding(crate::specs::Reading::port_send_at))]
fn port_send(cursor: &mut Cursor) -> Result<Msg, WireFault>
    ensures { IsReadAs port_send_at cursor.old cursor.new result }
{
    let port = port_name(cursor)?;
    let thread = thread_name(cursor)?;
    let asking = byte_within(cursor, 1, MOST_SITES as u8)? as u32;
    Ok(Msg::PortSend {
        port,
        thread,
        asking,
    })
}

// The ends of a port, for a thread that sent to it.
#[tactic(auto, unfolding(crate::specs::Reading::port_end_at))]
fn port_end(alloc: Global, form: Form, cursor: &mut Cursor) -> Result<Msg, WireFault>
    ensures { IsReadAs (port_end_at form) cursor.old cursor.new result }
{
    let thread = thread_name(cursor)?;
    let old = var_name(cursor)?;
    let new = var_name(cursor)?;
    let bundle = bundle(alloc, form, cursor)?;
    Ok(Msg::PortEnd {
        thread,
        old,
        new,
        bundle,
    })
}

// A stationary cell that was made.
#[tactic(auto, unfolding(crate::specs::Reading::cell_make_at))]
fn cell_make(alloc: Global, form: Form, cursor: &mut Cursor) -> Result<Msg, WireFault>
    ensures { IsReadAs (cell_make_at form) cursor.old cursor.new result }
{
    let cell = stationary_name(cursor)?;
    let content = var_name(cursor)?;
    let bundle = bundle(alloc, form, cursor)?;
    Ok(Msg::CellMake {
        cell,
        content,
        bundle,
    })
}

// A request of a thread to a stationary cell.
#[tactic(auto, unfolding(crate::specs::Reading::cell_ask_at))]
fn cell_ask(alloc: Global, form: Form, cursor: &mut Cursor) -> Result<Msg, WireFault>
    ensures { IsReadAs (cell_ask_at form) cursor.old cursor.new result }
{
    let cell = stationary_name(cursor)?;
    let thread = thread_name(cursor)?;
    let asking = byte_within(cursor, 1, MOST_SITES as u8)? as u32;
    let new = var_name(cursor)?;
    let bundle = bundle(alloc, form, cursor)?;
    Ok(Msg::CellAsk {
        cell,
        thread,
        asking,
        new,
        bundle,
    })
}

// The old content of a stationary cell, for a thread that asked.
#[tactic(auto, unfolding(crate::specs::Reading::cell_old_at))]
fn cell_old(alloc: Global, form: Form, cursor: &mut Cursor) -> Result<Msg, WireFault>
    ensures { IsReadAs (cell_old_at form) cursor.old cursor.new result }
{
    let thread = thread_name(cursor)?;
    let content = var_name(cursor)?;
    let bundle = bundle(alloc, form, cursor)?;
    Ok(Msg::CellOld {
        thread,
        content,
        bundle,
    })
}

// What follows a byte of kind above the seventh, which stands at the place: form 2 alone has such kinds.
#[tactic(auto, unfolding(crate::specs::Reading::later_body_at))]
fn later_body(
    alloc: Global,
    form: Form,
    at: usize,
    kind: u8,
    cursor: &mut Cursor,
) -> Result<Msg, WireFault>
    ensures { IsReadAs (later_body_at form at kind) cursor.old cursor.new result }
{
    match form {
        Form::One => Err(WireFault::Kind(at)),
        Form::Two => match kind {
            8 => port_send(cursor),
            9 => port_end(alloc, form, cursor),
            10 => cell_make(alloc, form, cursor),
            11 => cell_ask(alloc, form, cursor),
            12 => cell_old(alloc, form, cursor),
            _ => Err(WireFault::Kind(at)),
        },
    }
}

// What follows the byte of kind, which stands at the place and told this kind.
#[tactic(auto, unfolding(crate::specs::Reading::body_at))]
fn body(
    alloc: Global,
    form: Form,
    at: usize,
    kind: u8,
    cursor: &mut Cursor,
) -> Result<Msg, WireFault>
    ensures { IsReadAs (body_at form at kind) cursor.old cursor.new result }
{
    match kind {
        1 => spawn(alloc, form, cursor),
        2 => register(cursor),
        3 => bind_request(alloc, form, cursor),
        4 => binding(alloc, form, cursor),
        5 => get(cursor),
        6 => forward(cursor),
        7 => put(alloc, form, cursor),
        _ => later_body(alloc, form, at, kind, cursor),
    }
}

// A message in either form, behind which bytes may stand.
#[tactic(auto, unfolding(crate::specs::Reading::message_at))]
fn message(alloc: Global, cursor: &mut Cursor) -> Result<Msg, WireFault>
    ensures { IsReadAs message_at cursor.old cursor.new result }
{
    let at = cursor.place();
    let first = byte(cursor)?;
    let form = Form::of(first);
    let kind = first.saturating_sub(form.lead());
    body(alloc, form, at, kind, cursor)
}

// The message that all of the bytes spell.
#[tactic(auto, unfolding(byte_fields::specs::Reading::whole_at))]
fn whole(alloc: Global, bytes: &[u8]) -> Result<Msg, WireFault>
    ensures { IsReadAsWhole Memory message_at Rest bytes.now result }
{
    let mut cursor = Cursor::new(bytes);
    let msg = message(alloc, &mut cursor)?;
    if cursor.len() != 0 {
        return Err(WireFault::Rest(cursor.place()));
    }
    Ok(msg)
}

/// The message that the bytes spell in form 1 or in form 2, or their first fault. It reads each byte once, and takes memory
/// by the number of bytes, whatever the counts among them promise.
pub fn decode(alloc: Global, bytes: &[u8]) -> Result<Msg, WireFault>
    // What is read is spelled so in one of the forms, and fits.
    ensures spelled { IfOk result (λ m. (form : AForm) × IsSpelling form bytes.now m) }
    ensures fits { IfOk result (λ m. FitsWire m) }
    // What is spelled so in one of them is read, unless memory runs out.
    ensures only { (form : AForm) (m : AMessage) → IsSpelling form bytes.now m → (result ≡ Ok m) ⊎ (result ≡ Err Memory) }
    // A fault is the first one, unless memory runs out.
    ensures fault { IfErr result (λ f. (f ≡ Memory) ⊎ IsFirstFault bytes.now f) }
    // The first fault is answered, unless memory runs out.
    ensures first { (f : AFault) → IsFirstFault bytes.now f → (result ≡ Err f) ⊎ (result ≡ Err Memory) }
{
    whole(alloc, bytes)
}
