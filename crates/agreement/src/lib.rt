// Theorems alone: specs/.
#![tactic(auto)]
