//! Bytes as messages between sites: the format, its laws, and the decoder. Form 2 and form 1 are read.
//!
//! For: `wire_form`, which writes messages too, and hands on all that stands here. `docs/wire.md` tells the format to writers and readers
//! in other languages.
//!
//! Promises: `decode` answers a message exactly where the bytes are its spelling in one of the forms (`spelled`, `only`), which then
//! can be spelled again (`fits`), and a fault exactly where it is the first fault of the bytes, with its place (`fault`, `first`). It may
//! answer that no memory was left, and nothing else. The spelling and the first fault are defined by a grammar of fields with the form as a parameter (`Field`,
//! `Format`), which no code shares. Laws of it, as functions that do nothing: every list of bytes is the spelling of one
//! message in one form or has one first fault, and not both (`bytes_spell_or_fail`); no spelling in either form is a proper prefix of
//! another (`no_proper_prefix`); the first byte of a spelling tells its form (`first_byte_tells_form`); what form 1 spells form 2
//! spells (`form_2_spells_all`); the messages of the format are those that `wire_fits` tells, and for form 1 `fits_words` of `wire_form`
//! (`format_is_what_fits`); worked messages and faults in both forms (`worked_messages`, `worked_faults`).
//!
//! Stands on: `byte_fields`, the fields of which the format is made, and the cursor; `site_message`, `tree_node`; `thiserror` for the
//! texts of the faults, on which nothing rests.
//!
//! By tests alone: that ample memory suffices. Cost is told by no clause: each byte is read once; `decode` takes memory by what stands,
//! whatever the counts promise.
//!
//! Sources: the format is this project's own; UTF-8 is that of the Unicode standard. What the messages are for is of the articles
//! that `site_message` names.
#![tactic(auto)]

mod fault;
mod form;
mod laws;
mod names;
mod numbers;
mod reading;

pub use fault::WireFault;
pub use form::Form;
pub use laws::{
    bytes_spell_or_fail, first_byte_tells_form, form_2_spells_all, format_is_what_fits,
    no_proper_prefix, worked_faults, worked_messages,
};
pub use reading::decode;
