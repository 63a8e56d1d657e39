// The column that a T line adds, and the columns that look-ups then consult. No code.
#![tactic(auto)]
