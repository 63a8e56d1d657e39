// The plain ledger of document 01, by which demand 3 judges the engine. No code.
#![tactic(auto)]
