// No code: laws on binary32 that other crates cite. `proofs/Lib.antt` lists them in reading order.

#![tactic(auto)]
