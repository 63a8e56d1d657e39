// Demand 3 for what runs: every list of lines through the call, and every book. No code.
#![tactic(auto)]
