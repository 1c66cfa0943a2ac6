//! Programs with sugar as their texts have them.

ghost use Rattle.std.specs.Prelude.{◌≡◌, ◌≤◌, ℕ, length, string_bytes};
ghost use Rattle.tree_node.specs.Each.{Each};
ghost use Rattle.kernel_syntax.specs.SugarView.{statements_in};
ghost use Rattle.kernel_syntax.specs.SugarLimits.{FitsStatements};
ghost use Rattle.kernel_syntax.specs.Surfaces.{surface_of};

use crate::sugar::Statement;
use std::marker::Model;

/// A program with sugar as its text has it: its tree, the text, and the place where each symbol of the text begins, by which a
/// statement or a value that has so many symbols left is found. The tree is within the limits of programs.
#[derive(Drop)]
pub struct Surface {
    tree: Vec<Statement>,
    text: String,
    starts: Vec<usize>,
}

impl Model for Surface {
    ghost use Rattle.std.specs.Prelude.{◌≤◌, ℕ, length, string_bytes};
    ghost use Rattle.std.specs.Coded.{codes};
    ghost use Rattle.tree_node.specs.Each.{Each};
    ghost use Rattle.kernel_syntax.specs.contracts.sugar.Statement as e;
    ghost use Rattle.kernel_syntax.specs.SugarView.{statements_in};
    ghost use Rattle.kernel_syntax.specs.SugarLimits.{FitsStatements};
    ghost use Rattle.kernel_syntax.specs.Surfaces.{SurfaceParts, surface_of};

    ghost Value = { SurfaceParts };

    ghost coded = { Prim.hlevel (codes, e.the_row.coded) };

    ghost view = { λ s. surface_of s.tree.items (string_bytes s.text) s.starts.items };

    ghost invariant = { λ s. FitsStatements (statements_in s.tree.items) 0 × Each (λ (k : ℕ). k ≤ length (string_bytes s.text)) s.starts.items };
}

impl Surface {
    /// A program of these parts.
    pub fn new(tree: Vec<Statement>, text: String, starts: Vec<usize>) -> Surface
        requires fits { FitsStatements (statements_in tree.items) 0 }
        requires within { Each (λ (k : ℕ). k ≤ length (string_bytes text)) starts.items }
        ensures { result ≡ surface_of tree.items (string_bytes text) starts.items }
    {
        Surface { tree, text, starts }
    }

    /// The tree.
    pub fn tree(&self) -> &[Statement]
        ensures tree { result.now ≡ self.now.tree }
        ensures fits { FitsStatements (statements_in self.now.tree) 0 }
    {
        self.tree.as_slice()
    }

    /// The text.
    pub fn text(&self) -> &str
        ensures { result.now ≡ self.now.text }
    {
        self.text.as_str()
    }

    /// The places where the symbols of the text begin.
    pub fn starts(&self) -> &[usize]
        ensures starts { result.now ≡ self.now.starts }
        ensures within { Each (λ (k : ℕ). k ≤ length self.now.text) self.now.starts }
    {
        self.starts.as_slice()
    }
}
