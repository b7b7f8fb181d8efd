//! Survey files: fields of a tag, a length and a body, read whole or refused by number and byte place, and written.
#![tactic(auto)]

pub mod bytes;
mod entry;
pub mod field;
pub mod reader;
pub mod record;
pub mod writer;
