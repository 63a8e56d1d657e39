// Demand 3 for every list of entries: what the engine reports, against the plain ledger. Read-backs come in demand_three. No code.
#![tactic(auto)]
