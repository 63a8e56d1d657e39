// What is written reads back, and what is read writes back. No code.
#![tactic(auto)]
