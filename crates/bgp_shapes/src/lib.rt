//! BGP over the shapes of routes, as plain data: what export, import and the decision process make of a route that is
//! known by its shape alone. The laws say that this is the shape of what they make of the route.
#![tactic(auto)]

pub mod laws;
