// Laws of lists, tests and integers that the other crates cite. No code.
#![tactic(auto)]
