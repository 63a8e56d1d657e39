// The foot of a listing adds up with the sheet above it. No code.
#![tactic(auto)]
