//! Routes and announcements that are made again from their shapes: a solution of a formula knows paths, communities and
//! cluster lists by their shapes alone, and a routing has real ones.
#![tactic(auto)]

mod environment;
mod following;
mod shapes;
mod tables;

use route_record::{BgpRec, Environment, Shape, Tables};
pub use tables::rebuild;

/// A BGP route, or an announcement, of which the lists are known by their shape alone: `rec` has the plain fields, and
/// its lists are not read. A set of the shape has a bit for each position of the tracked values; bits past these are not
/// read either.
#[derive(Drop)]
pub struct ShapeRec {
    pub rec: BgpRec,
    pub shape: Shape,
}

/// Tables with real BGP routes, and the environment that announces them.
#[derive(Drop)]
pub struct Rebuilt {
    pub tables: Tables,
    pub env: Environment,
}
