//! Laws of the module that kept records make.
#![tactic(auto)]
