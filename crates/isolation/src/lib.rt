// Demand 3: what one call's receiver is, and that a receiver of many answers each call as that one would. There is no code here; the receiver's is in crate receiver.
#![tactic(auto)]
