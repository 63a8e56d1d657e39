// Limits that are widened, and what stays. No code.
#![tactic(auto)]
