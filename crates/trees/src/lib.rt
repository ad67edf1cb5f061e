#![tactic(auto)]
// A tree as a person reads it: the records of an image that was read back as indented lines.
pub mod around; // the records around a place
mod lines; // a record as a line
mod links; // the records of an image that was read back
mod paths; // names behind names
mod rows; // arrays of small values
pub mod tree; // the records in a person's order
pub mod unread; // why an image is not shown
