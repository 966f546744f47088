// The laws of rounding, without code: a crate that lists `rounding` cites its `specs/` and
// `proofs/`.
#![tactic(auto)]
