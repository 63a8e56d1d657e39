// What a call answers and writes, and the order of its parts. No code.
#![tactic(auto)]
