//! Whether a text can spell what a statement names.

ghost use Rattle.std.specs.Prelude.{◌≡◌, ◌↔◌, ℕ, ◌≤◌, length, map, IsTrue, IfOk};
ghost use Rattle.std.specs.List.{list_all};
ghost use Rattle.std.specs.Str.{IsUtf8};
ghost use Rattle.tree_node.specs.declared.node.Feature.{Feature};
ghost use Rattle.tree_node.specs.Each.{Each};
ghost use Rattle.kernel_syntax.specs.Arithmetic.{is_integer};
ghost use Rattle.kernel_syntax.specs.Texts.{is_text_byte, IsText, IsFeature, IsSpelledSelector, IsSpelledPattern, IsIntegerIfSome, HasTexts};

use crate::stmt::{Pattern, Selector, Stmt};
use std::alloc::{AllocError, Global};
use tree_node::{Feature, Integer, Text, atom_text};

/// Whether each atom, label and feature of a statement is an atom's text.
pub fn has_texts(alloc: Global, stmt: &Stmt) -> Result<bool, AllocError>
    ensures { IfOk result (λ b. IsTrue b ↔ HasTexts stmt.now) }
{
    match stmt {
        Stmt::TellInt { value, .. } => Ok(is_integer(value)),
        Stmt::TellAtom { text, .. } => is_text(alloc, text),
        Stmt::TellRec { label, fields, .. } => {
            Ok(is_text(alloc, label)? && are_fields(alloc, fields.as_slice())?)
        }
        Stmt::Select { by, .. } => is_spelled_selector(alloc, by),
        Stmt::Case { pattern, .. } => is_spelled_pattern(alloc, pattern),
        Stmt::Thread { at, .. } => Ok(is_integer_if_some(at)),
        _ => Ok(true),
    }
}

// Every value of the type is one.
fn is_integer(value: &Integer) -> bool
    ensures { IsTrue result ↔ IsTrue (is_integer value.now) }
{
    let _ = value.get();
    true
}

fn is_integer_if_some(at: &Option<Integer>) -> bool
    ensures { IsTrue result ↔ IsIntegerIfSome at.now }
{
    match at {
        Some(site) => is_integer(site),
        None => true,
    }
}

fn is_text(alloc: Global, text: &Text) -> Result<bool, AllocError>
    ensures { IfOk result (λ b. IsTrue b ↔ IsText text.now) }
{
    let bytes = text.as_slice();
    Ok(are_characters(bytes) && atom_text(alloc, text)?.as_slice().len() <= 255)
}

fn are_characters(bytes: &[u8]) -> bool
    ensures { IsTrue result ↔ (IsUtf8 bytes.now × IsTrue (list_all is_text_byte bytes.now)) }
{
    is_utf8(bytes) && are_text_bytes(bytes)
}

fn is_utf8(bytes: &[u8]) -> bool
    ensures { IsTrue result ↔ IsUtf8 bytes.now }
{
    str::from_utf8(bytes).is_ok()
}

fn are_text_bytes(bytes: &[u8]) -> bool
    ensures { result ≡ list_all is_text_byte bytes.now }
{
    bytes.iter().all(|byte| is_text_byte(*byte))
}

fn is_text_byte(byte: u8) -> bool
    ensures { result ≡ is_text_byte byte }
{
    byte == b'\n' || !(byte <= 31 || byte == 127)
}

fn is_feature(alloc: Global, feature: &Feature) -> Result<bool, AllocError>
    ensures { IfOk result (λ b. IsTrue b ↔ IsFeature feature.now) }
{
    match feature {
        Feature::Int(value) => Ok(is_integer(value)),
        Feature::Atom(text) => is_text(alloc, text),
    }
}

fn is_spelled_selector(alloc: Global, by: &Selector) -> Result<bool, AllocError>
    ensures { IfOk result (λ b. IsTrue b ↔ IsSpelledSelector by.now) }
{
    match by {
        Selector::Var(_) => Ok(true),
        Selector::Feature(feature) => is_feature(alloc, feature),
    }
}

fn is_spelled_pattern(alloc: Global, pattern: &Pattern) -> Result<bool, AllocError>
    ensures { IfOk result (λ b. IsTrue b ↔ IsSpelledPattern pattern.now) }
{
    match pattern {
        Pattern::Int(value) => Ok(is_integer(value)),
        Pattern::Atom(text) => is_text(alloc, text),
        Pattern::Rec(label, features) => {
            Ok(is_text(alloc, label)? && are_features(alloc, features.as_slice())?)
        }
    }
}

fn are_features(alloc: Global, features: &[Feature]) -> Result<bool, AllocError>
    ensures { IfOk result (λ b. IsTrue b ↔ Each IsFeature features.now) }
{
    match features {
        [] => Ok(true),
        [first, others @ ..] => Ok(is_feature(alloc, first)? && are_features(alloc, others)?),
    }
}

fn are_fields(alloc: Global, fields: &[(Feature, u32)]) -> Result<bool, AllocError>
    ensures { IfOk result (λ b. IsTrue b ↔ Each IsFeature (map (λ (f : Feature × ℕ). f.0) fields.now)) }
{
    match fields {
        [] => Ok(true),
        [first, others @ ..] => Ok(is_feature(alloc, &first.0)? && are_fields(alloc, others)?),
    }
}
