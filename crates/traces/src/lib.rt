//! What transfers send and tell, for C. The benchmark compares it with what plain C sends and tells.
#![tactic(auto)]

mod trace;
