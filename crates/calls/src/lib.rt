// The contract of a call and what is claimed of lists of calls, for any layout of the store: definitions and theorems, no code.
#![tactic(auto)]
