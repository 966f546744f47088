// The desk card, a to m: one table of laws of the entry points' definitions, without code of its
// own.
#![tactic(auto)]
