// No code: the walk over the cells of a grid and the two numberings of its vertices, as definitions (specs/) and laws (proofs/).
// The crates that extract a mesh promise these definitions; `proofs/Theorems.antt` says what is known of them.

#![tactic(auto)]
