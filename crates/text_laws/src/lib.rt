// The laws of the reader: every text that it accepts is a proper job, and what a refusal says. They stand in specs/; no code here.
#![tactic(auto)]
