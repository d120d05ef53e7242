//! The worlds of a network with BGP over the places of a plan: what is open of their slots, the worlds by shapes and the
//! real ones that follow, and the laws that tie what is open to stable routings.
#![tactic(auto)]

pub mod laws;
