// The reading rule and what the passes promise by it.
#![tactic(auto)]
