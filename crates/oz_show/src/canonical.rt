//! The canonical text of a program.

ghost use Rattle.std.specs.Prelude.{◌≡◌, ◌++◌, OnOk, IfOk};
ghost use Rattle.std.specs.Str.{IsUtf8};
ghost use Rattle.oz_grammar.specs.Reads.{Reads};
ghost use Rattle.oz_show.specs.CanonicalText.{operator_text, test_text, word_text, symbol_text, text_behind, symbols_text, canonical_text};

use crate::laws::canonical_text_reads_back;
use crate::program::symbols_of;
use crate::symbols::Symbols;
use kernel_syntax::{Op, Program, TestOp};
use oz_grammar::Symbol;
use std::alloc::{AllocError, Global};
use tree_node::{Feature, Integer, Text, atom_text, feature_text};

/// The canonical text of a program: one blank between any two tokens and a newline after the last, where the identifier
/// at position n is `V` and n, every field has its feature, and pairs and `proc` statements are written out.
pub fn program_text(alloc: Global, program: &Program) -> Result<Text, AllocError>
    ensures text { IfOk result (λ t. t ≡ canonical_text program.now) }
    ensures reads { IfOk result (λ t. Reads t program.now) }
    ensures utf8 { IfOk result (λ t. IsUtf8 t) }
{
    program.is_program();
    canonical_text_reads_back();
    let symbols = symbols_of(alloc, program)?;
    let text = symbols_text(alloc, symbols)?;
    Ok(Text::from_vec(text)?)
}

fn symbols_text(alloc: Global, mut symbols: Symbols) -> Result<Vec<u8>, AllocError>
    ensures { IfOk result (λ v. v.items ≡ symbols_text symbols) }
{
    let mut text = Vec::new(alloc);
    spell_first(alloc, &mut text, &mut symbols)?;
    spell_behind(alloc, &mut text, symbols)?;
    Ok(text)
}

fn spell_first(alloc: Global, text: &mut Vec<u8>, symbols: &mut Symbols) -> Result<(), AllocError>
    ensures { OnOk result (text.new.items ++ text_behind symbols.new ≡ text.old.items ++ symbols_text symbols.old) }
{
    match symbols.take() {
        Some(first) => spell(alloc, text, &first),
        None => Ok(()),
    }
}

fn spell_behind(alloc: Global, text: &mut Vec<u8>, mut symbols: Symbols) -> Result<(), AllocError>
    ensures { OnOk result (text.new.items ≡ text.old.items ++ text_behind symbols) }
{
    while let Some(symbol) = symbols.take() {
        if let Symbol::EndOfText = symbol {
            text.push(b'\n')?;
            return Ok(());
        }
        text.push(b' ')?;
        spell(alloc, text, &symbol)?;
    }
    text.push(b'\n')?;
    Ok(())
}

fn spell(alloc: Global, text: &mut Vec<u8>, symbol: &Symbol) -> Result<(), AllocError>
    ensures { OnOk result (text.new.items ≡ text.old.items ++ symbol_text symbol.now) }
{
    match symbol {
        Symbol::Variable(name) => text.extend_from_slice(name.as_slice())?,
        Symbol::Atom(atom) => text.extend_from_slice(atom_text(alloc, atom)?.as_slice())?,
        Symbol::Integer(Some(value)) => {
            text.extend_from_slice(feature_text(
                alloc,
                &Feature::Int(Integer::new(value.get())),
            )?.as_slice())?;
        }
        Symbol::Integer(None) => {}
        word => text.extend_from_slice(word_text(word))?,
    }
    Ok(())
}

fn word_text(word: &Symbol) -> &'static [u8]
    ensures { result.now ≡ word_text word.now }
{
    match word {
        Symbol::Skip => b"skip",
        Symbol::Local => b"local",
        Symbol::In => b"in",
        Symbol::End => b"end",
        Symbol::If => b"if",
        Symbol::Then => b"then",
        Symbol::Else => b"else",
        Symbol::Case => b"case",
        Symbol::Of => b"of",
        Symbol::Thread => b"thread",
        Symbol::At => b"at",
        Symbol::Try => b"try",
        Symbol::Catch => b"catch",
        Symbol::Raise => b"raise",
        Symbol::Proc => b"proc",
        Symbol::Equals => b"=",
        Symbol::OpenRound => b"(",
        Symbol::CloseRound => b")",
        Symbol::OpenCurly => b"{",
        Symbol::CloseCurly => b"}",
        Symbol::Dollar => b"$",
        Symbol::Colon => b":",
        Symbol::Dot => b".",
        Symbol::Bar => b"|",
        Symbol::Operator(operator) => operator_text(*operator),
        Symbol::Test(test) => test_text(*test),
        _ => b"",
    }
}

fn operator_text(operator: Op) -> &'static [u8]
    ensures { result.now ≡ operator_text operator }
{
    match operator {
        Op::Add => b"+",
        Op::Sub => b"-",
        Op::Mul => b"*",
        Op::Div => b"div",
        Op::Mod => b"mod",
        Op::Le => b"=<",
        Op::Lt => b"<",
        Op::Ge => b">=",
        Op::Gt => b">",
    }
}

fn test_text(test: TestOp) -> &'static [u8]
    ensures { result.now ≡ test_text test }
{
    match test {
        TestOp::Equal => b"==",
        TestOp::NotEqual => b"\\=",
    }
}
