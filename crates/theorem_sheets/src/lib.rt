// An export that is imported gives the S entries back, and an import is steps of demand 3. No code.
#![tactic(auto)]
