// No code: what a cell has by the signs of its eight corners, computed over all 256 of them. `specs/Signs.antt` has the
// definitions, `proofs/Identities.antt` the laws.

#![tactic(auto)]
