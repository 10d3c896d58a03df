// Laws of the machine: this crate has no code, only the theorems in specs/.
#![tactic(auto)]
