//! Walks over connected subnets and OSPF routes alone: from hop to hop a packet comes nearer to its destination, so that
//! none loops (RFC 2328, section 16.1).
#![tactic(auto)]

pub mod laws;
