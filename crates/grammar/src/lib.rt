#![tactic(auto)]
// The grammar: 01's phrases as derivations (specs/), what follows from them (proofs/), and the code that the phrase functions lean on.
pub mod layout; // how records are laid out
pub mod numbers; // the numbers handed back
pub mod operators; // operators by their kinds
pub mod settings; // what a setting switches on
pub mod tags; // the tags of records
pub mod writers; // records into a lent output
