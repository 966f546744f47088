// What is written reads back, and what is read writes back: laws of `packed_read` and
// `packed_write`, which have no code of their own.
#![tactic(auto)]
