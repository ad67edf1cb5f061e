#![tactic(auto)]
// Laws on lexemes that layers above cite: what is lexed alone, and blanks between lexemes. No code and no definitions: all in proofs/.
