//! What a program must still give.

ghost use Rattle.std.specs.Prelude.{◌≡◌, ◌++◌, ◌∷◌, [], MatchOption, IfOk, OnOk};
ghost use Rattle.oz_grammar.specs.Points as points;
ghost use Rattle.kernel_check.specs.Seen.{point_of, points_of, IsWithin};

use oz_grammar::{Closer, Sign};
use oz_phrases::Scope;
use std::alloc::{AllocError, Global};
use tree_node::{Stack, Text};

/// Where a statement may begin: at the front of a sequence, at that of a thread's body, or behind a statement.
#[derive(Clone, Copy)]
pub enum Stage {
    First,
    AfterThread,
    Later,
}

/// A point of the grammar, without the declarations around it and the levels that are left there.
#[derive(Clone, Copy)]
pub enum Kind {
    /// A statement, or the end of the sequence.
    At(Stage, Closer),
    /// One symbol.
    Here(Sign),
    /// A variable that is used.
    Used,
    /// The names of a `local`.
    LocalName,
    /// The right side of a tell, and what may follow its first variable or its atom.
    ValueOf(Closer),
    BehindVariable(Closer),
    BehindAtom(Closer),
    /// What follows a dot.
    SelectionOf,
    /// The fields of a record.
    Fields,
    /// The name of a call, an argument behind so many others, and so many arguments of what is built in.
    CallName,
    Arguments(usize),
    Wanted(u32),
    /// A pattern.
    PatternOf,
    /// The name in a `proc` statement, and formals.
    ProcName,
    Formals,
    /// The site of a thread, and the name in `catch`.
    SiteHere,
    CatchName,
}

/// A point within the first of the declarations around the points above it, under more names, with so many levels left.
#[derive(Drop)]
pub struct Point {
    pub kind: Kind,
    pub around: usize,
    pub names: Vec<Text>,
    pub depth: u32,
}

/// The points that a program must still give, the next on top, and the names declared around that.
#[derive(Drop)]
pub struct Points {
    pub alloc: Global,
    pub scope: Scope,
    pub stack: Stack<Point>,
}

impl Points {
    /// The point at the front of a program.
    pub fn start(alloc: Global) -> Result<Points, AllocError>
        ensures within { IfOk result (λ m. IsWithin m) }
        ensures points { IfOk result (λ m. points_of m ≡ points.start) }
    {
        let mut points = Points {
            alloc,
            scope: Scope::new(alloc),
            stack: Stack::new(alloc),
        };
        points.put(Kind::At(Stage::First, Closer::EndOfText), 200)?;
        Ok(points)
    }

    /// One point more, under these names.
    #[tactic(auto, using(crate::proofs::Nesting::seen_here))]
    pub fn open(&mut self, names: Vec<Text>, kind: Kind, depth: u32) -> Result<(), AllocError>
        requires { IsWithin self.old }
        ensures within { OnOk result (IsWithin self.new) }
        ensures scope { self.new.scope ≡ self.old.scope }
        ensures points { OnOk result (points_of self.new ≡ point_of kind (self.old.scope ++ names.items) depth ∷ points_of self.old) }
    {
        let point = Point {
            kind,
            around: self.scope.len(),
            names,
            depth,
        };
        match self.stack.push(point) {
            Ok(()) => Ok(()),
            Err(_) => Err(AllocError),
        }
    }

    /// One point more.
    #[tactic(auto, using(crate::proofs::Nesting::under_none))]
    pub fn put(&mut self, kind: Kind, depth: u32) -> Result<(), AllocError>
        requires { IsWithin self.old }
        ensures within { OnOk result (IsWithin self.new) }
        ensures scope { self.new.scope ≡ self.old.scope }
        ensures points { OnOk result (points_of self.new ≡ point_of kind self.old.scope depth ∷ points_of self.old) }
    {
        self.open(Vec::new(self.alloc), kind, depth)
    }

    /// Takes the next point, and declares what is declared around it.
    #[tactic(auto, using(crate::proofs::Nesting::same_seen, crate::proofs::Nesting::nested_taken))]
    pub fn take(&mut self) -> Result<Option<(Kind, u32)>, AllocError>
        requires { IsWithin self.old }
        ensures within { OnOk result (IsWithin self.new) }
        ensures points { IfOk result (λ taken. MatchOption taken (points_of self.old ≡ []) (λ p. points_of self.old ≡ point_of p.0 self.new.scope p.1 ∷ points_of self.new)) }
    {
        match self.stack.pop() {
            None => Ok(None),
            Some(
                Point {
                    kind,
                    around,
                    names,
                    depth,
                },
            ) => {
                self.scope.truncate(around);
                self.scope.declare_all(names.as_slice())?;
                Ok(Some((kind, depth)))
            }
        }
    }
}
