// Typed requests: their definitions stand in `plan`, what is proved of them in proofs/. Nothing runs here.
#![tactic(auto)]
