// Request 4 of document 02 as definitions, in specs/, and the laws about them, in proofs/. No code.

#![tactic(auto)]
