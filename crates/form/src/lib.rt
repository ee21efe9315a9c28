// The text form of patterns and what its reader and its writer promise.
#![tactic(auto)]
