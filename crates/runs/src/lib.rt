//! Lists of puts on a new draft; theorems on them: every number keeps its item, and two types share one exactly when
//! they are equal.
#![tactic(auto)]
