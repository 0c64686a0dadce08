// No code: CR 1, that mesh records are read back as they were written and written again as they were
// read. `proofs/Records.antt` says it of bytes, `proofs/ReadBack.antt` of what the two calls leave.

#![tactic(auto)]
