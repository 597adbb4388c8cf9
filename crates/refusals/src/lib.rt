// The numbers that document 01 gives back for refusals. The definitions and laws are in specs/.
#![tactic(auto)]
