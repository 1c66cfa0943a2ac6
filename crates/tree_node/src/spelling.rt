//! How atoms and the heads of nodes are spelled.

ghost use Rattle.std.specs.Prelude.{◌≡◌, ◌++◌, ◌∷◌, IfOk};
ghost use Rattle.std.specs.List.{list_all};
ghost use Rattle.tree_node.specs.declared.node.Feature.{Feature};
ghost use Rattle.tree_node.specs.Spelling.{int_text, atom_text, feature_text, head_text, proc_text, escaped_text, is_word_byte, is_bare};

use crate::line::Line;
use crate::node::{Feature, Node, Text};
use crate::words::is_reserved_word;
use std::alloc::{AllocError, Global};

/// The spelling of an atom, in quotes where it could not be read back without them.
pub fn atom_text(alloc: Global, text: &Text) -> Result<Line, AllocError>
    ensures { IfOk result (λ l. l ≡ atom_text text.now) }
{
    let bytes = atom_bytes(alloc, text.as_slice())?;
    Ok(Line::from_vec(bytes)?)
}

/// The spelling of a feature.
pub fn feature_text(alloc: Global, feature: &Feature) -> Result<Line, AllocError>
    ensures { IfOk result (λ l. l ≡ feature_text feature.now) }
{
    let bytes = feature_bytes(alloc, feature)?;
    Ok(Line::from_vec(bytes)?)
}

/// What a node prints before its fields: all of it, but of a record the label alone.
pub fn node_head(alloc: Global, node: &Node) -> Result<Line, AllocError>
    ensures { IfOk result (λ l. l ≡ head_text node.now) }
{
    let bytes = head_bytes(alloc, node)?;
    Ok(Line::from_vec(bytes)?)
}

/// The bytes of `node_head`, with room for more behind them.
pub fn head_bytes(alloc: Global, node: &Node) -> Result<Vec<u8>, AllocError>
    ensures { IfOk result (λ v. v.items ≡ head_text node.now) }
{
    match node {
        Node::Int(value) => Ok(int_bytes(alloc, value.get())?),
        Node::Atom(text) => Ok(atom_bytes(alloc, text.as_slice())?),
        Node::Rec(label, _) => Ok(atom_bytes(alloc, label.as_slice())?),
        Node::Proc(formals, _, _, _) => Ok(proc_bytes(alloc, *formals)?),
        Node::Cell(_) => Ok(Vec::from_slice(alloc, b"<Cell>")?),
        Node::Port(_) => Ok(Vec::from_slice(alloc, b"<Port>")?),
    }
}

/// The bytes of `feature_text`, with room for more behind them.
pub fn feature_bytes(alloc: Global, feature: &Feature) -> Result<Vec<u8>, AllocError>
    ensures { IfOk result (λ v. v.items ≡ feature_text feature.now) }
{
    match feature {
        Feature::Int(value) => Ok(int_bytes(alloc, value.get())?),
        Feature::Atom(text) => Ok(atom_bytes(alloc, text.as_slice())?),
    }
}

fn int_bytes(alloc: Global, value: i128) -> Result<Vec<u8>, AllocError>
    ensures { IfOk result (λ v. v.items ≡ int_text value) }
{
    let digits = format!(in alloc; "{}", value.unsigned_abs())?;
    let mut bytes = Vec::new(alloc);
    if value < 0 {
        bytes.push(b'~')?;
    }
    bytes.extend_from_slice(digits.as_bytes())?;
    Ok(bytes)
}

fn proc_bytes(alloc: Global, formals: u8) -> Result<Vec<u8>, AllocError>
    ensures { IfOk result (λ v. v.items ≡ proc_text formals) }
{
    let digits = format!(in alloc; "{formals}")?;
    let mut bytes = Vec::from_slice(alloc, b"<P/")?;
    bytes.extend_from_slice(digits.as_bytes())?;
    bytes.push(b'>')?;
    Ok(bytes)
}

fn atom_bytes(alloc: Global, text: &[u8]) -> Result<Vec<u8>, AllocError>
    ensures { IfOk result (λ v. v.items ≡ atom_text text.now) }
{
    if is_plain(text) {
        return Ok(Vec::from_slice(alloc, text)?);
    }
    let inner = escape(alloc, text)?;
    let mut bytes = Vec::new(alloc);
    bytes.push(b'\'')?;
    bytes.extend_from_slice(inner.as_slice())?;
    bytes.push(b'\'')?;
    Ok(bytes)
}

fn is_plain(text: &[u8]) -> bool
    ensures { result ≡ is_bare text.now }
{
    let first = if text.is_empty() { 0 } else { text[0] };
    first.is_ascii_lowercase() && (are_word_bytes(text) && !is_reserved_word(text))
}

fn is_part(byte: u8) -> bool
    ensures { result ≡ is_word_byte byte }
{
    byte.is_ascii_alphanumeric() || byte == b'_'
}

fn are_word_bytes(text: &[u8]) -> bool
    ensures { result ≡ list_all is_word_byte text.now }
{
    text.iter().all(|byte| is_part(*byte))
}

fn escape(alloc: Global, text: &[u8]) -> Result<Vec<u8>, AllocError>
    ensures { IfOk result (λ v. v.items ≡ escaped_text text.now) }
{
    let mut bytes = Vec::new(alloc);
    for byte in text {
        if *byte == b'\n' {
            bytes.extend_from_slice(b"\\n")?;
        } else if *byte == b'\'' || *byte == b'\\' {
            bytes.push(b'\\')?;
            bytes.push(*byte)?;
        } else {
            bytes.push(*byte)?;
        }
    }
    Ok(bytes)
}
