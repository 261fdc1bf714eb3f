//! The rules of sealing over a module, decoded from records; theorems on them.
#![tactic(auto)]
