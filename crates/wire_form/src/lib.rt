//! Messages between sites as bytes: form 2 is written and read, form 1 is read, and written for readers that know no other.
//!
//! For: what travels between sites as bytes, over whatever carries them. `docs/wire.md` tells the format to writers and readers
//! in other languages.
//!
//! Promises: `encode` answers the one spelling in form 2 of a message that can be spelled, which `site_message::wire_fits` tests;
//! `encode_1` the one in form 1, where besides each integer has 64 bits and nothing is of ports or stationary cells, which `fits_words`
//! tests. `decode`, the format and its laws are those of `wire_reader`, which it hands on. Both writers may answer that no memory was
//! left, and nothing else. They share nothing with the decoder but the format.
//!
//! Stands on: `wire_reader`, `byte_fields`, `site_message`, `tree_node`.
//!
//! By tests alone: that ample memory suffices. The tests, in `text_tests`, try worked rows of both forms on both directions too, each
//! with bytes cut off, added and exchanged, as another program, written from the format alone, says. Cost is told by no clause: each
//! byte is written once; encoding takes memory once for the bytes.
#![tactic(auto)]

mod requests;
mod size;
mod words;
mod writing;

pub use wire_reader::{
    Form, WireFault, bytes_spell_or_fail, decode, first_byte_tells_form, form_2_spells_all,
    format_is_what_fits, no_proper_prefix, worked_faults, worked_messages,
};
pub use words::fits_words;
pub use writing::{Bytes, encode, encode_1};
