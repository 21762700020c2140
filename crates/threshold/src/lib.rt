// No code: what crosses the door is said in specs/, and proved in proofs/.
#![tactic(auto)]
