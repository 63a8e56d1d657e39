// The parts of a book's listing, joined. No code.
#![tactic(auto)]
