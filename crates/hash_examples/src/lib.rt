// Worked examples of SHA-256 and HMAC, computed from the definitions: specs/Examples.antt. A crate of its own, since each compression takes the prover half a second.
#![tactic(auto)]
