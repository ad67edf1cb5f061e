#![tactic(auto)]
// Lexemes: the longest match of the rules of syntax_kinds.rs, written out, and the kept lexemes of a source.
// Kept: a source and a place in it are two parameters. Nearly each call has another place, so a struct of both would be made anew at each, which is no plainer.
mod at; // what begins with `@`: verbatim strings, and junk
mod bytes; // bytes, characters and their classes
mod comments; // what begins with `/` or `#`
pub mod kept; // the next kept lexeme, a cursor over them, the first bad lexeme
pub mod kinds; // the kinds by name
pub mod lexer; // the lexeme at a place
mod numbers; // numbers and their junk rules
mod operators; // operators and punctuation
mod quoted; // strings in quotes with escapes
mod scan; // which of these it is, and blocks
pub mod words; // identifiers and keywords

// What the rules match at a place: a kind, and where the match ends.
#[derive(Drop)]
pub struct Matched {
    pub kind: u8,
    pub end: usize,
}

// A lexeme of a source.
#[derive(Drop)]
pub struct Lexeme {
    pub kind: u8,
    pub start: usize,
    pub end: usize,
}
