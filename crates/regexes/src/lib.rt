#![tactic(auto)]
// Regular expressions as values: definitions in specs/, derivatives and their laws in proofs/. No code: the lexer is written out.
