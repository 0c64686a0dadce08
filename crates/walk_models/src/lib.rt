// No code: what extraction does to the memory lent to it, as definitions that its private functions promise (specs/), and the laws that this is the
// mesh of crate `walk` (proofs/). Nothing here need be believed.

#![tactic(auto)]
