// No code: CR 9, that a joined mesh has no open seam inside the box. `specs/Seam.antt` says what that means, `proofs/Theorems.antt` that it holds,
// of the defined mesh over any number of layers and of what `marching_cubes::extract` leaves.

#![tactic(auto)]
