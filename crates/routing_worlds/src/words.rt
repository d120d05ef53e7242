//! What is true of the numbers of every network and question: they fit their fields. The functions only read.

ghost use Rattle.std.specs.Prelude.{◌≡◌, ◌<◌, ◌^◌, All, true};
ghost use Rattle.std.specs.List.{list_all};
ghost use Rattle.route_record.specs.Fits.{IsAddress, IsWord};
ghost use Rattle.net_parts.specs.World.{is_word};
ghost use Rattle.rebuilt_routes.specs.Words.{HasWordSets, SetsWords};
ghost use Rattle.slot_places.specs.Rooms.{rooms_of};
ghost use Rattle.world_variables.specs.Packets.{FitsSet};
ghost use Rattle.world_variables.specs.Worlds.{FitsDistance};
ghost use Rattle.routing_worlds.specs.Worlds.{HasWordNetwork};

use ios_ast::{File, MapEntry, RouteMap, SetAct, StaticRoute};
use mw_text::Addr;
use net_model::Net;
use question_lang::{PacketSet, Question};
use slot_places::Room;
use world_variables::read_rooms;

fn word(n: u32)
    ensures { IsWord n }
{}

fn octet(n: u8)
    ensures { n < 2 ^ 8 }
{}

/// That numbers of 32 bits are such, as a fact for the caller and as a test that they pass.
#[tactic(auto, using(crate::proofs::WordSteps::words_pass))]
pub fn read_words(values: &[u32])
    ensures all { All IsWord values.now }
    ensures tested { list_all is_word values.now ≡ true }
{
    for value in values {
        word(*value);
    }
}

fn read_cluster(cluster: &Addr)
    ensures { IsAddress cluster.now }
{
    word(cluster.0);
}

fn read_clusters(clusters: &[Addr])
    ensures { All IsAddress clusters.now }
{
    for cluster in clusters {
        read_cluster(cluster);
    }
}

fn read_set(act: &SetAct)
    ensures { SetsWords act.now }
{
    match act {
        SetAct::Community(values, _) => read_words(values.as_slice()),
        SetAct::Prepend(numbers) => read_words(numbers.as_slice()),
        _ => {}
    }
}

fn read_sets(sets: &[SetAct])
    ensures { All SetsWords sets.now }
{
    for act in sets {
        read_set(act);
    }
}

fn read_entries(entries: &[MapEntry])
    ensures { All (λ e. All SetsWords e.sets) entries.now }
{
    for entry in entries {
        read_sets(entry.sets.as_slice());
    }
}

fn read_maps(maps: &[RouteMap])
    ensures { All (λ map. All (λ e. All SetsWords e.sets) map.entries) maps.now }
{
    for map in maps {
        read_entries(map.entries.as_slice());
    }
}

// The values that set lines bring in, in all files.
fn read_policies(files: &[File])
    ensures { All HasWordSets files.now }
{
    for file in files {
        read_maps(file.policies.maps.as_slice());
    }
}

fn read_distance(route: &StaticRoute)
    ensures { FitsDistance route.now }
{
    octet(route.distance);
}

fn read_statics(statics: &[StaticRoute])
    ensures { All FitsDistance statics.now }
{
    for route in statics {
        read_distance(route);
    }
}

// The distances of static routes, in all files.
fn read_distances(files: &[File])
    ensures { All (λ file. All FitsDistance file.statics) files.now }
{
    for file in files {
        read_statics(file.statics.as_slice());
    }
}

fn read_packets(set: PacketSet)
    ensures { FitsSet set }
{
    let _fields = (set.proto, set.src, set.dst, set.sport, set.dport);
}

/// That every number of a network and of a question fits its field, as a fact for the caller. `rooms` are those of OSPF
/// routes by router.
pub fn read_network(net: &Net, question: &Question, rooms: &[Option<Room>])
    requires rooms { rooms.now ≡ rooms_of net.now.files question.now.packets.dst }
    ensures { HasWordNetwork net.now.files net.now.tracked question.now }
{
    let files = net.routers();
    let tracked = net.tracked();
    read_words(tracked.numbers.as_slice());
    read_clusters(tracked.clusters.as_slice());
    read_policies(files);
    read_distances(files);
    read_rooms(rooms);
    read_packets(question.packets);
}
