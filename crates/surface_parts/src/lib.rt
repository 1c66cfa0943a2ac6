//! The parts of the reader of texts with sugar that do not call themselves.
//!
//! For: `surface_reader`, which makes the trees of symbols.
//!
//! Promises: each tree is the one of its parts (`surface_grammar`, specs/Trees.antt); each question on symbols is answered as
//! `surface_grammar` reads them; and `formal_wrong` tells what is wrong with one formal more.
//!
//! Stands on: `oz_phrases` (declarations), `surface_grammar` (how symbols are read), `kernel_syntax` (trees).
//!
//! Tests alone show no promise of it; tables in `text_tests` try texts, worked by hand.
//!
//! Sources: Van Roy and Haridi, *Concepts, Techniques, and Models of Computer Programming*, section 2.6.
#![tactic(auto)]

mod formals;
mod signs;
mod trees;

pub use formals::formal_wrong;
pub use signs::{
    behind, expected_behind, goes_on, is_at_compound, is_at_statement, is_case, is_clause,
    is_close, is_dot, is_end_of, is_if, is_integer, is_variable,
};
pub use trees::{
    Fields, act, add_field, apply_two, brackets, call_statement, call_value, case_statement,
    case_value, finally, first_statement, function, if_statement, if_value, is_given, local,
    no_fields, one_statement, pair_value, place_feature, procedure, push_clause, push_statement,
    push_value, push_value_clause, raise, record_value, select, thread, try_statement,
};
