// What a resumed connection is keyed by, after every list of calls of the unit: theorems alone, in specs/.
#![tactic(auto)]
