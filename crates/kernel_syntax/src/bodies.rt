//! The statements of a sequence.

ghost use Rattle.std.specs.Prelude.{◌≡◌, [], ◌∷◌, ◌++◌, OnOk};

use std::alloc::{AllocError, Global};
use std::marker::Model;
use tree_node::CodeId;

/// The numbers of statements in the order in which they run, which contracts see as a list. Up to four of them, as most
/// sequences have, lie within; more of them in a vector, and then the count says five.
#[derive(Drop)]
pub struct Bodies {
    few: [CodeId; 4],
    count: usize,
    many: Vec<CodeId>,
}

impl Model for Bodies {
    ghost use Rattle.std.specs.Prelude.{List};
    ghost use Rattle.tree_node.specs.declared.names.CodeId.{CodeId};
    ghost use Rattle.kernel_syntax.specs.BodyList.{few_or_many};

    ghost Value = { List CodeId };

    ghost view = { λ b. few_or_many b.count b.few b.many.items };
}

impl Bodies {
    /// No statement.
    pub fn new(alloc: Global) -> Bodies
        ensures { result ≡ [] }
    {
        Bodies {
            few: [CodeId(0); 4],
            count: 0,
            many: Vec::new(alloc),
        }
    }

    /// The numbers of a vector.
    pub fn from_vec(many: Vec<CodeId>) -> Bodies
        ensures { result ≡ many.items }
    {
        Bodies {
            few: [CodeId(0); 4],
            count: 5,
            many,
        }
    }

    /// The numbers.
    pub fn as_slice(&self) -> &[CodeId]
        ensures { result.now ≡ self.now }
    {
        if self.count > 4 {
            self.many.as_slice()
        } else {
            &self.few[..self.count]
        }
    }

    /// One number more, behind the others.
    #[tactic(auto, using(crate::proofs::BodyLemmas::few_more, crate::proofs::BodyLemmas::many_more))]
    pub fn push(&mut self, body: CodeId) -> Result<(), AllocError>
        ensures { OnOk result (self.new ≡ self.old ++ body ∷ []) }
    {
        if self.count < 4 {
            self.few[self.count] = body;
            self.count += 1;
            return Ok(());
        }
        if self.count == 4 {
            self.many = Vec::from_slice(*self.many.allocator(), &self.few[..self.count])?;
            self.count = 5;
        }
        self.many.push(body)?;
        Ok(())
    }
}
