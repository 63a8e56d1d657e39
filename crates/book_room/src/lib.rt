// Room for any listing. No code.
#![tactic(auto)]
