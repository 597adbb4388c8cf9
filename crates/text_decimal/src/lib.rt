// Decimal words: the definitions and theorems are in specs/; the crates above have the calls.
#![tactic(auto)]
