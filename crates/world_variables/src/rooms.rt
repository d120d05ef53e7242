//! What is true of the values of every room.

ghost use Rattle.std.specs.Prelude.{◌<◌, ◌^◌, All, IfSome};
ghost use Rattle.world_variables.specs.Unknowns.{HasWords};

use slot_places::{Field, Room};

fn word(_value: u32)
    ensures { _value < 2 ^ 32 }
{}

fn read_values(values: &[u32])
    ensures { All (λ n. n < 2 ^ 32) values.now }
{
    for value in values {
        word(*value);
    }
}

fn read_field(field: &Field)
    ensures { HasWords field.now }
{
    match field {
        Field::Bits(_) => {}
        Field::Among(values) => read_values(values.as_slice()),
        Field::Addresses(addresses) => read_values(addresses.as_slice()),
    }
}

fn read_room(room: &Option<Room>)
    ensures { IfSome room.now (λ r. HasWords r.metric) }
{
    match room {
        None => {}
        Some(room) => read_field(&room.metric),
    }
}

/// That the metrics of rooms fit 32 bits, as a fact for the caller.
pub fn read_rooms(rooms: &[Option<Room>])
    ensures { All (λ o. IfSome o (λ r. HasWords r.metric)) rooms.now }
{
    for room in rooms {
        read_room(room);
    }
}
