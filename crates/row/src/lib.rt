//! Orders in which each item stands after all that it points to.
#![tactic(auto)]
