//! The steps of BGP's decision process by their names (RFC 4271, section 9.1.2.2; RFC 4456, section 9; Cisco IOS, best
//! path selection).

/// A step of the decision process, by what it compares.
#[derive(Clone, Copy)]
pub enum Step {
    Weight,
    Preference,
    Origination,
    PathLength,
    Origin,
    Med,
    Session,
    Cost,
    Identifier,
    Clusters,
    Address,
}
