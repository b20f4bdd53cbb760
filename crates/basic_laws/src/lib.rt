//! Laws of no subject of their own, which the proofs of other crates cite: of truth values, lists, options and numbers.
#![tactic(auto)]
