#![tactic(auto)]
// What a person reads: a refusal as a sentence with its place, and what trees are shown with.
mod bad_blocks; // text blocks with a line at fault
pub mod differences; // two sources that part
mod escapes; // what is wrong with an escape
pub mod file; // a file that is told of
pub mod page; // where it is written
pub mod places; // places as a person counts them
pub mod records; // the image's records
pub mod refusals; // a refusal as a sentence
pub mod say; // words, numbers and characters
mod short; // short texts with numbers
pub mod texts; // texts, whose ends are never left out
mod unseen; // characters that cannot be seen
mod within; // what stands open before a place
