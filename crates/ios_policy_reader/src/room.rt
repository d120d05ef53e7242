//! How many entries the lists and route maps of a file may still have.

ghost use Rattle.std.specs.Prelude.{◌≡◌, ◌-◌, length};
ghost use Rattle.std.specs.List.{sum_by};
ghost use Rattle.ios_policy_reader.specs.Lists.{has_room};

use ios_ast::{
    AccessList, AsPathList, CommunityList, MOST_POLICY_ENTRIES, Policies, PrefixList, RouteMap,
};

/// How much room is left after the entries of these prefix lists.
fn room_after_prefix_lists(room: usize, lists: &[PrefixList]) -> usize
    ensures { result ≡ room - sum_by (λ list. length list.entries) lists.now }
{
    let mut left = room;
    for list in lists {
        left = left.saturating_sub(list.entries.items.len());
    }
    left
}

/// How much room is left after the entries of these community lists.
fn room_after_community_lists(room: usize, lists: &[CommunityList]) -> usize
    ensures { result ≡ room - sum_by (λ list. length list.entries) lists.now }
{
    let mut left = room;
    for list in lists {
        left = left.saturating_sub(list.entries.items.len());
    }
    left
}

/// How much room is left after the entries of these AS-path lists.
fn room_after_as_path_lists(room: usize, lists: &[AsPathList]) -> usize
    ensures { result ≡ room - sum_by (λ list. length list.entries) lists.now }
{
    let mut left = room;
    for list in lists {
        left = left.saturating_sub(list.entries.items.len());
    }
    left
}

/// How much room is left after the entries of these access lists.
fn room_after_access_lists(room: usize, lists: &[AccessList]) -> usize
    ensures { result ≡ room - sum_by (λ list. length list.entries) lists.now }
{
    let mut left = room;
    for list in lists {
        left = left.saturating_sub(list.entries.items.len());
    }
    left
}

/// How much room is left after the entries of these route maps.
fn room_after_route_maps(room: usize, lists: &[RouteMap]) -> usize
    ensures { result ≡ room - sum_by (λ list. length list.entries) lists.now }
{
    let mut left = room;
    for list in lists {
        left = left.saturating_sub(list.entries.items.len());
    }
    left
}

/// Whether there is room for one more entry.
pub fn has_room_left(policies: &Policies) -> bool
    ensures { result ≡ has_room policies.now }
{
    let room = room_after_prefix_lists(MOST_POLICY_ENTRIES, policies.prefix_lists.as_slice());
    let room = room_after_community_lists(room, policies.communities.as_slice());
    let room = room_after_as_path_lists(room, policies.as_paths.as_slice());
    let room = room_after_access_lists(room, policies.access.as_slice());
    room_after_route_maps(room, policies.maps.as_slice()) > 0
}
