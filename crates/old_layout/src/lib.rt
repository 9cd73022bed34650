// "The engine must give the same book as the old file with those rows written in" (document 02, F-5), as a law in specs/. No code.

#![tactic(auto)]
