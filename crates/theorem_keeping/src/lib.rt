// What entries reach, a statement carries. No code.
#![tactic(auto)]
