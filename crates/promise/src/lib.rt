// No function: what is promised of the streams (demand 3) is stated in specs/, and proved in proofs/laws/.
#![tactic(auto)]
