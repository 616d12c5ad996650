// The three demands, over the contracts of the public calls. They are statements and proofs alone; no code stands here.
#![tactic(auto)]
