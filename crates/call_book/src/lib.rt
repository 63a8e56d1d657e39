// A book run line by line through the call. No code.
#![tactic(auto)]
