// The run of a whole line as document 01 has it, and what is proved of it: specs/ and proofs/ alone, no code.
#![tactic(auto)]
