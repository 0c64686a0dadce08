// No code: document 01's cases W1 to W11 as one claim, in proofs/Cases.antt.

#![tactic(auto)]
