// The certificate of demand 3: one theorem on the entry points' answers for an accepted day, in specs/. No code.

#![tactic(auto)]
