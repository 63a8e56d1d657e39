// Demand 3 whole: entries and read-backs, against the plain ledger. No code.
#![tactic(auto)]
