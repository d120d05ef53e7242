//! Worlds whose BGP routes are known by their shapes, as plain data: the test that their BGP equations hold, the real
//! world and the environment that are made of them, and the laws that tie both.
#![tactic(auto)]

pub mod laws;
