// An option that is written part after part. The definitions and laws are in specs/; the crates above have the calls.
#![tactic(auto)]
