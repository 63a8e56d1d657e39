// The examples that document 01 marks to be proved, as a list under one theorem. No code.
#![tactic(auto)]
