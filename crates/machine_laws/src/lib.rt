// The laws of the machine's records: a turn over them is the meaning's turn, and when a state fits. They stand in specs/; no code here.
#![tactic(auto)]
