// Where the parts of a statement stand in its bytes. No code.
#![tactic(auto)]
