// The text of a row report out, for flatpack text that the crate `flatpack_text` reads.
//
//   reply     what `rowreport` writes for a text that was read
//   explain   what a refusal means, in plain words
//   locate    where in the text it was found: line and slot
//   write     the lines of a report

#![tactic(auto)]

pub mod explain;
pub mod locate;
mod pieces; // pieces.rt: numbers and words in a buffer
pub mod reply;
pub mod write;
