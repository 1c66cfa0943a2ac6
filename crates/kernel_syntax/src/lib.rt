//! Programs of the kernel language as tables of statements, and programs with sugar as trees.
//!
//! For: what a program is, apart from its text. The reader of kernel texts makes programs (`Program`), and every machine walks
//! them: a body is the number of its statement, an identifier the number of declarations around its own. The reader of texts
//! with sugar makes trees (`sugar`), and hands each on with its text as a `Surface`, from which a program is made.
//!
//! Promises: `Program::try_from_vec` gives a program exactly where the statements are one (`IsProgram`: each within the limits,
//! naming what a text can spell, in preorder, at most 200 levels deep, each body with one owner, under the declarations that
//! it counts). `Program::code` and `Program::free` give its statements and their free positions, which are those that are
//! used and not declared (`free_is_used`, `free_goes_out`, `free_unfolds`), at most 12,800 of them (`free_is_few`). What the
//! operators give is exact (`operators_divide`). Contracts see a tree as `Statements` (specs/Sugar.antt), by `SugarView`. Each
//! `Surface` has a tree within the limits (`FitsStatements`: what it uses is declared, each list has its items, and all can be
//! spelled) and places within its text; that its text reads as its tree is a promise of the reader, and not of the type.
//!
//! Stands on: `tree_node`, for texts, features, their order and how they are spelled, and for the stack of the bodies that are
//! still to come. That a table is a program exactly where a text is read as it stands where texts are read and printed
//! (`oz_show::programs_are_texts`).
//!
//! `threads` shows that threads may share a program.
//!
//! Tests alone show (`unit_tests`) that a program is made and asked where there is memory.
//!
//! Sources: Van Roy and Haridi, *Concepts, Techniques, and Models of Computer Programming*, sections 2.3 (the kernel
//! language), 2.4.2 (scope), 2.6 (sugar), 2.7 (exceptions), 3.2 (numbers), 4.1 (threads), 6.3 (cells); its appendix C (how
//! atoms are spelled).
#![tactic(auto)]

mod bodies;
mod built_in;
mod few;
mod fronts;
mod laws;
mod limits;
mod merge;
mod position_lists;
mod preorder;
mod program;
mod slots;
mod stmt;
pub mod sugar;
mod surface;
mod table;
mod texts;
mod threads;

pub use bodies::Bodies;
pub use built_in::BuiltIn;
pub use laws::{free_goes_out, free_is_few, free_is_used, free_unfolds, operators_divide};
pub use program::{Program, ProgramError};
pub use slots::Slots;
pub use stmt::{Features, Op, Pattern, Positions, Selector, Stmt, TestOp, features};
pub use surface::Surface;
