//! Symbols that are put down from the last to the first.

ghost use Rattle.std.specs.Prelude.{◌≡◌, [], ◌∷◌, OnOk, IfOk, IfSome, IfNone, codes, map, Some, Option, length, ◌<◌, ◌+◌, ◌^◌};
ghost use Rattle.tree_node.specs.declared.node.Feature.{Feature};
ghost use Rattle.oz_grammar.specs.declared.symbol.Symbol.TheVariants as t;
ghost use Rattle.oz_grammar.specs.Grammar.{names_text, fields_text, feature_symbol, pattern_text};
ghost use Rattle.oz_grammar.specs.Canonical.{name_at, names_from, feature_token, slot_field, declared_fields, pattern_tree};
ghost use Rattle.kernel_syntax.specs.Scopes.{features_in};

use kernel_syntax::Pattern;
use oz_grammar::{Numeral, Symbol};
use std::alloc::{AllocError, Global};
use std::marker::Model;
use tree_node::{Feature, Stack, Text};

/// Symbols with the next one at the front: each is put before those that stand there.
#[derive(Drop)]
pub struct Symbols {
    symbols: Stack<Symbol>,
}

impl Model for Symbols {
    ghost use Rattle.std.specs.Prelude.{List};
    ghost use Rattle.oz_grammar.specs.declared.symbol.Symbol.{Symbol};

    ghost Value = { List Symbol };

    ghost view = { λ s. s.symbols };
}

impl Symbols {
    /// No symbols yet.
    pub fn new(alloc: Global) -> Symbols
        ensures { result ≡ [] }
    {
        Symbols {
            symbols: Stack::new(alloc),
        }
    }

    /// Puts a symbol before the others.
    pub fn put(&mut self, symbol: Symbol) -> Result<(), AllocError>
        ensures { OnOk result (self.new ≡ symbol ∷ self.old) }
    {
        self.symbols.push(symbol)?;
        Ok(())
    }

    /// Takes the first.
    pub fn take(&mut self) -> Option<Symbol>
        ensures some { IfSome result (λ s. self.old ≡ s ∷ self.new) }
        ensures none { IfNone result ((self.old ≡ []) × (self.new ≡ [])) }
    {
        self.symbols.pop()
    }

    /// Puts the identifier at a position.
    pub fn put_name(&mut self, alloc: Global, position: u32) -> Result<(), AllocError>
        ensures { OnOk result (self.new ≡ t.Variable (name_at position) ∷ self.old) }
    {
        let digits = format!(in alloc; "{position}")?;
        let mut bytes = Vec::from_slice(alloc, b"V")?;
        bytes.extend_from_slice(digits.as_bytes())?;
        self.put(Symbol::Variable(Text::from_vec(bytes)?))
    }

    /// Puts the name of a built-in procedure.
    pub fn put_built_in(&mut self, alloc: Global, name: &[u8]) -> Result<(), AllocError>
        ensures { OnOk result (self.new ≡ t.Variable name.now ∷ self.old) }
    {
        self.put(Symbol::Variable(Text::from_vec(Vec::from_slice(alloc, name)?)?))
    }

    /// Puts an atom.
    pub fn put_atom(&mut self, text: &Text) -> Result<(), AllocError>
        ensures { OnOk result (self.new ≡ t.Atom text.now ∷ self.old) }
    {
        self.put(Symbol::Atom(text.copy()?))
    }

    /// Puts a feature.
    pub fn put_feature(&mut self, feature: &Feature) -> Result<(), AllocError>
        ensures { OnOk result (self.new ≡ feature_symbol (feature_token feature.now) ∷ self.old) }
    {
        match feature {
            Feature::Int(value) => self.put(Symbol::Integer(Some(Numeral::new(value.get())))),
            Feature::Atom(text) => self.put_atom(text),
        }
    }

    /// Puts so many identifiers from a position on.
    pub fn put_names_from(
        &mut self,
        alloc: Global,
        first: u32,
        count: u32,
    ) -> Result<(), AllocError>
        requires { first + count < 2 ^ 32 }
        ensures { OnOk result (self.new ≡ names_text (names_from first count) self.old) }
    {
        if count == 0 {
            return Ok(());
        }
        self.put_names_from(alloc, first + 1, count - 1)?;
        self.put_name(alloc, first)
    }

    /// Puts the identifiers at these positions.
    pub fn put_names(&mut self, alloc: Global, positions: &[u32]) -> Result<(), AllocError>
        ensures { OnOk result (self.new ≡ names_text (map name_at positions.now) self.old) }
    {
        match positions {
            [] => Ok(()),
            [first, rest @ ..] => {
                self.put_names(alloc, rest)?;
                self.put_name(alloc, *first)
            }
        }
    }

    /// Puts fields, each with its feature.
    pub fn put_fields(&mut self, alloc: Global, fields: &[(Feature, u32)]) -> Result<(), AllocError>
        ensures { OnOk result (self.new ≡ fields_text (map slot_field fields.now) self.old) }
    {
        match fields {
            [] => Ok(()),
            [first, rest @ ..] => {
                self.put_fields(alloc, rest)?;
                self.put_name(alloc, first.1)?;
                self.put(Symbol::Colon)?;
                self.put_feature(&first.0)
            }
        }
    }

    /// Puts features with the identifiers from a position on.
    pub fn put_declared_fields(
        &mut self,
        alloc: Global,
        first: u32,
        features: &[Feature],
    ) -> Result<(), AllocError>
        requires { first + length features.now < 2 ^ 32 }
        ensures { OnOk result (self.new ≡ fields_text (declared_fields first features.now) self.old) }
    {
        match features {
            [] => Ok(()),
            [feature, rest @ ..] => {
                self.put_declared_fields(alloc, first + 1, rest)?;
                self.put_name(alloc, first)?;
                self.put(Symbol::Colon)?;
                self.put_feature(feature)
            }
        }
    }

    /// Puts a pattern whose identifiers are those from a position on.
    pub fn put_pattern(
        &mut self,
        alloc: Global,
        first: u32,
        pattern: &Pattern,
    ) -> Result<(), AllocError>
        requires { first + length (features_in pattern.now) < 2 ^ 32 }
        ensures { OnOk result (self.new ≡ pattern_text (pattern_tree first pattern.now) self.old) }
    {
        match pattern {
            Pattern::Int(value) => self.put(Symbol::Integer(Some(Numeral::new(value.get())))),
            Pattern::Atom(text) => self.put_atom(text),
            Pattern::Rec(label, features) => {
                self.put(Symbol::CloseRound)?;
                self.put_declared_fields(alloc, first, features.as_slice())?;
                self.put(Symbol::OpenRound)?;
                self.put_atom(label)
            }
        }
    }
}
