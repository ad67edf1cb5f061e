#![tactic(auto)]
// What the importer of JSON and the reader of Jsonnet say of one text. Definitions in specs/, theorems in proofs/. No code.
