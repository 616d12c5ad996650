// The definitions of the document file and the laws about them stand in specs/ and proofs/: there is no code.
#![tactic(auto)]
