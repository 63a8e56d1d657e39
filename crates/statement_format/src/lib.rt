// The bytes of a carried statement. No code.
#![tactic(auto)]
