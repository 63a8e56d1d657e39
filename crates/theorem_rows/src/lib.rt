// Rows written and read again. No code.
#![tactic(auto)]
