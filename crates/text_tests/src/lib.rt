//! Tests of how texts are read and printed, from the text to the line: what refusals, canonical texts and last lines say, as
//! tables. They are a crate of their own, since a crate with tests is proved twice. They show what no contract says: that
//! texts, worked by hand, are refused where and as the grammar means, print in the canonical form, and stand for the programs that
//! their sugar means. They stand on `oz_parser`, `oz_sugar` and `oz_show`. So do tests of messages and of saved runs as bytes, on
//! `wire_form` and `run_file`: worked ones are read and written, and other bytes are refused where the format means.
#![tactic(auto)]

#[cfg(test)]
mod canonical;
#[cfg(test)]
mod faults;
#[cfg(test)]
mod levels;
#[cfg(test)]
mod printed;
#[cfg(test)]
mod saved_runs;
#[cfg(test)]
mod statuses;
#[cfg(test)]
mod sugar;
#[cfg(test)]
mod wire;
#[cfg(test)]
mod wire_rows;
