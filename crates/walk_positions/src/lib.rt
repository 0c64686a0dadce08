// No code: where the vertices of a grid's mesh are, and demand 3 over the mesh.

#![tactic(auto)]
