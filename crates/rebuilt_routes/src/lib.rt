//! The routes that stand behind the shapes of a stable routing: each is followed back over the session over which it was
//! learnt, to an announcement or to a local route. The laws say that they have these shapes and are held.
#![tactic(auto)]

pub mod laws;
