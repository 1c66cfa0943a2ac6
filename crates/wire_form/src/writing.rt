//! Messages as bytes.

ghost use Rattle.std.specs.Prelude.{◌≡◌, ◌+◌, ◌≤◌, ◌∷◌, ◌++◌, [], IfOk, OnOk};
ghost use Rattle.tree_node.specs.Each.{Each};
ghost use Rattle.tree_node.specs.declared.limits.TheConstants.{MOST_SITES};
ghost use Rattle.tree_node.specs.declared.node.Term.{Term as ATerm};
ghost use Rattle.site_message.specs.Wire.{IsSite, FitsText, FitsFeature, FitsField, FitsFields, FitsVar, FitsVars, FitsCell, FitsNode, FitsTerm, FitsEquation, FitsBundle, FitsWire};
ghost use Rattle.tree_node.specs.declared.node.Term.TheVariants as terms;
ghost use Rattle.site_message.specs.declared.message.Msg.TheVariants as messages;
ghost use Rattle.wire_reader.specs.declared.form.Form.TheVariants as forms;
ghost use Rattle.std.specs.Int.{w64, w128};
ghost use Rattle.wire_reader.specs.Field.{signed_number};
ghost use Rattle.wire_reader.specs.Format.{lead, IsTwo, site, name, var_name, cell_name, stationary_name, port_name, HasCell, cell_spelling, proc_name, thread_name, code, integer, text, feature, record_field, record_fields, variables, term, equation, bundle, message, IsSpelling};
ghost use Rattle.wire_reader.specs.Numbers.{IsMobileOr, EachInFeature, EachInField, EachInTerm, EachInEquation, EachInBundle, EachInMessage, IsWord, FitsWords, HasRoom};
ghost use Rattle.wire_form.specs.Writing.{IsWritten};

use crate::requests::put_request_or_answer;
use crate::size::message_size;
use site_message::{Bundle, Msg};
use std::alloc::{AllocError, Global};
use tree_node::{
    CellName, CodeId, Feature, Node, PortName, ProcName, Seq, Term, ThreadName, VarName, Vars,
};
use wire_reader::Form;

/// The bytes of a message.
pub type Bytes = Seq<u8>;

// A site.
pub(crate) fn put_site(out: &mut Vec<u8>, value: u32) -> Result<(), AllocError>
    requires { IsSite value }
    ensures { IsWritten site value out.old.items out.new.items result }
{
    out.push(value as u8)?;
    Ok(())
}

// A site and a number.
fn put_name(out: &mut Vec<u8>, site_of: u32, num: u64) -> Result<(), AllocError>
    requires { IsSite site_of }
    ensures { IsWritten name (site_of, num) out.old.items out.new.items result }
{
    put_site(out, site_of)?;
    out.extend_from_slice(&num.to_be_bytes())
}

// A variable's name.
pub(crate) fn put_var(out: &mut Vec<u8>, x: VarName) -> Result<(), AllocError>
    requires { FitsVar x }
    ensures { IsWritten var_name x out.old.items out.new.items result }
{
    put_name(out, x.site, x.num)
}

// A port's name.
pub(crate) fn put_port(out: &mut Vec<u8>, x: PortName) -> Result<(), AllocError>
    requires { IsSite x.site }
    ensures { IsWritten port_name x out.old.items out.new.items result }
{
    put_name(out, x.site, x.num)
}

// A stationary cell's name, with its home.
pub(crate) fn put_stationary(out: &mut Vec<u8>, x: CellName) -> Result<(), AllocError>
    requires site { IsSite x.site }
    requires home { IsSite x.at }
    ensures { IsWritten stationary_name x out.old.items out.new.items result }
{
    put_name(out, x.site, x.num)?;
    put_site(out, x.at)
}

// A cell as a value: a mobile one, or in form 2 a stationary one.
fn put_cell_value(out: &mut Vec<u8>, form: Form, x: CellName) -> Result<(), AllocError>
    requires site { IsSite x.site }
    requires home { x.at ≤ MOST_SITES }
    requires room { IsMobileOr (IsTwo form) x.at }
    ensures { OnOk result (HasCell form x x.at × (out.new.items ≡ out.old.items ++ cell_spelling x x.at)) }
{
    if x.at == 0 {
        out.push(5)?;
        put_cell(out, x)
    } else {
        out.push(7)?;
        put_stationary(out, x)
    }
}

// A mobile cell's name.
fn put_cell(out: &mut Vec<u8>, x: CellName) -> Result<(), AllocError>
    requires { FitsCell x }
    ensures { IsWritten cell_name x out.old.items out.new.items result }
{
    put_name(out, x.site, x.num)
}

// A procedure's name.
fn put_proc(out: &mut Vec<u8>, x: ProcName) -> Result<(), AllocError>
    requires { IsSite x.site }
    ensures { IsWritten proc_name x out.old.items out.new.items result }
{
    put_name(out, x.site, x.num)
}

// A thread's name.
pub(crate) fn put_thread(out: &mut Vec<u8>, x: ThreadName) -> Result<(), AllocError>
    requires { IsSite x.site }
    ensures { IsWritten thread_name x out.old.items out.new.items result }
{
    put_name(out, x.site, x.num)
}

// The number of a statement.
fn put_code(out: &mut Vec<u8>, c: CodeId) -> Result<(), AllocError>
    ensures { IsWritten code c out.old.items out.new.items result }
{
    out.extend_from_slice(&c.0.to_be_bytes())
}

// An integer of eight bytes.
fn put_integer_64(out: &mut Vec<u8>, value: i64) -> Result<(), AllocError>
    ensures { IsWritten (signed_number w64) value out.old.items out.new.items result }
{
    out.extend_from_slice(&value.to_be_bytes())
}

// An integer of sixteen bytes.
fn put_integer_128(out: &mut Vec<u8>, value: i128) -> Result<(), AllocError>
    ensures { IsWritten (signed_number w128) value out.old.items out.new.items result }
{
    out.extend_from_slice(&value.to_be_bytes())
}

// An integer of the form.
fn put_integer(out: &mut Vec<u8>, form: Form, value: i128) -> Result<(), AllocError>
    requires { HasRoom form value }
    ensures { IsWritten (integer form) value out.old.items out.new.items result }
{
    match form {
        Form::One => put_integer_64(out, value as i64),
        Form::Two => put_integer_128(out, value),
    }
}

// A text.
fn put_text(out: &mut Vec<u8>, bytes: &[u8]) -> Result<(), AllocError>
    requires { FitsText bytes.now }
    ensures { IsWritten text bytes.now out.old.items out.new.items result }
{
    out.push(bytes.len() as u8)?;
    out.extend_from_slice(bytes)
}

// A feature.
fn put_feature(out: &mut Vec<u8>, form: Form, value: &Feature) -> Result<(), AllocError>
    requires fits { FitsFeature value.now }
    requires room { EachInFeature (HasRoom form) value.now }
    ensures { IsWritten (feature form) value.now out.old.items out.new.items result }
{
    match value {
        Feature::Int(number) => {
            out.push(0)?;
            put_integer(out, form, number.get())
        }
        Feature::Atom(bytes) => {
            out.push(1)?;
            put_text(out, bytes.as_slice())
        }
    }
}

// A field of a record.
fn put_field(out: &mut Vec<u8>, form: Form, field: &(Feature, VarName)) -> Result<(), AllocError>
    requires fits { FitsField field.now }
    requires room { EachInField (HasRoom form) field.now }
    ensures { IsWritten (record_field form) field.now out.old.items out.new.items result }
{
    put_feature(out, form, &field.0)?;
    put_var(out, field.1)
}

// The fields of a record.
fn put_fields(
    out: &mut Vec<u8>,
    form: Form,
    fields: &[(Feature, VarName)],
) -> Result<(), AllocError>
    requires fits { FitsFields fields.now }
    requires room { Each (EachInField (HasRoom form)) fields.now }
    ensures { IsWritten (record_fields form) fields.now out.old.items out.new.items result }
{
    out.push(fields.len() as u8)?;
    for field in fields {
        put_field(out, form, field)?;
    }
    Ok(())
}

// A list of variables.
fn put_variables(out: &mut Vec<u8>, vars: &[VarName]) -> Result<(), AllocError>
    requires { FitsVars vars.now }
    ensures { IsWritten variables vars.now out.old.items out.new.items result }
{
    out.extend_from_slice(&(vars.len() as u16).to_be_bytes())?;
    for var in vars {
        put_var(out, *var)?;
    }
    Ok(())
}

// A node, as a term.
fn put_node(out: &mut Vec<u8>, form: Form, value: &Node) -> Result<(), AllocError>
    requires fits { FitsNode value.now }
    requires room { EachInTerm (HasRoom form) (IsTwo form) (terms.Node value.now) }
    ensures { IsWritten (term form) (terms.Node value.now) out.old.items out.new.items result }
{
    match value {
        Node::Int(number) => {
            out.push(1)?;
            put_integer(out, form, number.get())
        }
        Node::Atom(bytes) => {
            out.push(2)?;
            put_text(out, bytes.as_slice())
        }
        Node::Rec(label, fields) => {
            out.push(3)?;
            put_text(out, label.as_slice())?;
            put_fields(out, form, fields.as_slice())
        }
        Node::Proc(count, code, name, vars) => {
            out.push(4)?;
            put_proc(out, *name)?;
            put_code(out, *code)?;
            out.push(*count)?;
            put_variables(out, vars.as_slice())
        }
        Node::Cell(x) => put_cell_value(out, form, *x),
        Node::Port(x) => {
            out.push(6)?;
            put_port(out, *x)
        }
    }
}

// A term.
fn put_term(out: &mut Vec<u8>, form: Form, value: &Term) -> Result<(), AllocError>
    requires fits { FitsTerm value.now }
    requires room { EachInTerm (HasRoom form) (IsTwo form) value.now }
    ensures { IsWritten (term form) value.now out.old.items out.new.items result }
{
    match value {
        Term::Var(x) => {
            out.push(0)?;
            put_var(out, *x)
        }
        Term::Node(node) => put_node(out, form, node),
    }
}

// An equation of a bundle.
fn put_equation(out: &mut Vec<u8>, form: Form, entry: &(VarName, Term)) -> Result<(), AllocError>
    requires fits { FitsEquation entry.now }
    requires room { EachInEquation (HasRoom form) (IsTwo form) entry.now }
    ensures { IsWritten (equation form) entry.now out.old.items out.new.items result }
{
    put_var(out, entry.0)?;
    put_term(out, form, &entry.1)
}

// A bundle.
pub(crate) fn put_bundle(
    out: &mut Vec<u8>,
    form: Form,
    equations: &[(VarName, Term)],
) -> Result<(), AllocError>
    requires fits { FitsBundle equations.now }
    requires room { EachInBundle (HasRoom form) (IsTwo form) equations.now }
    ensures { IsWritten (bundle form) equations.now out.old.items out.new.items result }
{
    out.extend_from_slice(&(equations.len() as u16).to_be_bytes())?;
    for entry in equations {
        put_equation(out, form, entry)?;
    }
    Ok(())
}

// The byte of kind of a message, for a kind of this number.
pub(crate) fn put_kind(out: &mut Vec<u8>, form: Form, kind: u8) -> Result<(), AllocError>
    requires { kind ≤ 12 }
    ensures { OnOk result (out.new.items ≡ out.old.items ++ (lead form + kind) ∷ []) }
{
    out.push(form.lead() + kind)?;
    Ok(())
}

// A message that starts a thread.
fn put_spawn(
    out: &mut Vec<u8>,
    form: Form,
    thread: ThreadName,
    code: CodeId,
    vars: &Vars,
    bundle: &Bundle,
) -> Result<(), AllocError>
    requires fits { FitsWire (messages.Spawn thread code vars.now bundle.now) }
    requires room { EachInMessage (HasRoom form) (IsTwo form) (messages.Spawn thread code vars.now bundle.now) }
    ensures { IsWritten (message form) (messages.Spawn thread code vars.now bundle.now) out.old.items out.new.items result }
{
    put_kind(out, form, 1)?;
    put_thread(out, thread)?;
    put_code(out, code)?;
    put_variables(out, vars.as_slice())?;
    put_bundle(out, form, bundle.as_slice())
}

// The message by which a site asks to be told of a variable's binding.
fn put_register(out: &mut Vec<u8>, form: Form, var: VarName, asking: u32) -> Result<(), AllocError>
    requires { FitsWire (messages.Register var asking) }
    ensures { IsWritten (message form) (messages.Register var asking) out.old.items out.new.items result }
{
    put_kind(out, form, 2)?;
    put_var(out, var)?;
    put_site(out, asking)
}

// A message that asks for a bind.
fn put_bind_request(
    out: &mut Vec<u8>,
    form: Form,
    var: VarName,
    thread: ThreadName,
    term: &Term,
    bundle: &Bundle,
) -> Result<(), AllocError>
    requires fits { FitsWire (messages.BindReq var thread term.now bundle.now) }
    requires room { EachInMessage (HasRoom form) (IsTwo form) (messages.BindReq var thread term.now bundle.now) }
    ensures { IsWritten (message form) (messages.BindReq var thread term.now bundle.now) out.old.items out.new.items result }
{
    put_kind(out, form, 3)?;
    put_var(out, var)?;
    put_thread(out, thread)?;
    put_term(out, form, term)?;
    put_bundle(out, form, bundle.as_slice())
}

// A message that tells a binding.
fn put_binding(
    out: &mut Vec<u8>,
    form: Form,
    var: VarName,
    term: &Term,
    bundle: &Bundle,
) -> Result<(), AllocError>
    requires fits { FitsWire (messages.Binding var term.now bundle.now) }
    requires room { EachInMessage (HasRoom form) (IsTwo form) (messages.Binding var term.now bundle.now) }
    ensures { IsWritten (message form) (messages.Binding var term.now bundle.now) out.old.items out.new.items result }
{
    put_kind(out, form, 4)?;
    put_var(out, var)?;
    put_term(out, form, term)?;
    put_bundle(out, form, bundle.as_slice())
}

// A message that asks a cell's manager for the token.
fn put_token_request(
    out: &mut Vec<u8>,
    form: Form,
    cell: CellName,
    asking: u32,
) -> Result<(), AllocError>
    requires { FitsWire (messages.Get cell asking) }
    ensures { IsWritten (message form) (messages.Get cell asking) out.old.items out.new.items result }
{
    put_kind(out, form, 5)?;
    put_cell(out, cell)?;
    put_site(out, asking)
}

// A message that tells a site its successor.
fn put_forward(out: &mut Vec<u8>, form: Form, cell: CellName, next: u32) -> Result<(), AllocError>
    requires { FitsWire (messages.Forward cell next) }
    ensures { IsWritten (message form) (messages.Forward cell next) out.old.items out.new.items result }
{
    put_kind(out, form, 6)?;
    put_cell(out, cell)?;
    put_site(out, next)
}

// A message that is the token of a cell.
fn put_token(
    out: &mut Vec<u8>,
    form: Form,
    cell: CellName,
    content: VarName,
    bundle: &Bundle,
) -> Result<(), AllocError>
    requires fits { FitsWire (messages.Put cell content bundle.now) }
    requires room { EachInMessage (HasRoom form) (IsTwo form) (messages.Put cell content bundle.now) }
    ensures { IsWritten (message form) (messages.Put cell content bundle.now) out.old.items out.new.items result }
{
    put_kind(out, form, 7)?;
    put_cell(out, cell)?;
    put_var(out, content)?;
    put_bundle(out, form, bundle.as_slice())
}

// A message.
fn put_message(out: &mut Vec<u8>, form: Form, msg: &Msg) -> Result<(), AllocError>
    requires fits { FitsWire msg.now }
    requires room { EachInMessage (HasRoom form) (IsTwo form) msg.now }
    ensures { IsWritten (message form) msg.now out.old.items out.new.items result }
{
    match msg {
        Msg::Spawn {
            thread,
            code,
            vars,
            bundle,
        } => put_spawn(out, form, *thread, *code, vars, bundle),
        Msg::Register { var, asking } => put_register(out, form, *var, *asking),
        Msg::BindReq {
            var,
            thread,
            term,
            bundle,
        } => put_bind_request(out, form, *var, *thread, term, bundle),
        Msg::Binding { var, term, bundle } => put_binding(out, form, *var, term, bundle),
        Msg::Get { cell, asking } => put_token_request(out, form, *cell, *asking),
        Msg::Forward { cell, next } => put_forward(out, form, *cell, *next),
        Msg::Put {
            cell,
            content,
            bundle,
        } => put_token(out, form, *cell, *content, bundle),
        _ => put_request_or_answer(out, form, msg),
    }
}

// The spelling of a message in the form. It takes memory once for all of the bytes, and a step for each part of the message.
fn spelling(alloc: Global, form: Form, msg: &Msg) -> Result<Bytes, AllocError>
    requires fits { FitsWire msg.now }
    requires room { EachInMessage (HasRoom form) (IsTwo form) msg.now }
    ensures { IfOk result (λ bytes. IsSpelling form bytes msg.now) }
{
    let mut out = Vec::with_capacity(alloc, message_size(form, msg))?;
    put_message(&mut out, form, msg)?;
    Ok(Seq::from_vec(out))
}

/// The one spelling of a message in form 2. It takes memory once for all of the bytes, and a step for each part of the message.
#[tactic(auto, using(wire_reader::proofs::IntegerLaws::always_room))]
pub fn encode(alloc: Global, msg: &Msg) -> Result<Bytes, AllocError>
    requires { FitsWire msg.now }
    ensures { IfOk result (λ bytes. IsSpelling forms.Two bytes msg.now) }
{
    spelling(alloc, Form::Two, msg)
}

/// The one spelling of a message in form 1, for readers that know no other: it has to be one that `fits_words`
/// tells. It costs what `encode` does.
pub fn encode_1(alloc: Global, msg: &Msg) -> Result<Bytes, AllocError>
    requires fits { FitsWire msg.now }
    requires words { FitsWords msg.now }
    ensures { IfOk result (λ bytes. IsSpelling forms.One bytes msg.now) }
{
    spelling(alloc, Form::One, msg)
}
