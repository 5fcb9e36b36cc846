// No function: a shift register, its paths, and the one that disagrees least, over any register and any cost.
#![tactic(auto)]
