//! The numbers of a BGP route of which lines of the files say the values.

/// A number of a BGP route: its weight, its local preference, its MED, its next hop, or the first or the last AS number of
/// its path.
#[derive(Clone, Copy)]
pub enum HeldNumber {
    Weight,
    LocalPref,
    Med,
    NextHop,
    FirstAs,
    LastAs,
}
