// Parts that only arrays have: literals, maps, filters, iotas and replicates.
ghost use Rattle.std.specs.Prelude.{◌<◌, ◌≤◌};

use super::wants;
use test_draft::{Desk, Room};
use test_values::kinds::Kind;

// How many elements a literal has: mostly a few, at times 16, and on a spine at least one.
fn literal_length(desk: &mut Desk, spine: bool) -> u64
    ensures { result ≤ 16 }
{
    let many = desk.chance(12);
    if spine {
        return 1 + desk.choose(3);
    }
    if many { 16 } else { desk.choose(4) }
}

// Writes a literal.
fn make_literal(desk: &mut Desk, depth: u8, room: Room)
    requires { (0 < room.levels) × (0 < depth) }
{
    let length = literal_length(desk, room.spine);
    desk.write(Kind::Literal, length + 256 * u64::from(depth - 1));
    for left in (0..length).rev() {
        wants::push_child(desk, depth - 1, room, left == 0);
    }
}

// The depth of the elements that a map of this depth goes over. For a map of numbers these are mostly numbers too: then
// it may rewrite its array.
fn element_depth(desk: &mut Desk, depth: u8) -> u8
    ensures { result < 4 }
{
    let alike = !desk.chance(4);
    if depth == 1 && alike {
        return 0;
    }
    desk.choose(4) as u8
}

// Writes a map.
fn make_map(desk: &mut Desk, depth: u8, room: Room)
    requires { (0 < room.levels) × (0 < depth) }
{
    let name = wants::binding_name(desk);
    let element = element_depth(desk, depth);
    let deep_body = !desk.chance(3);
    desk.write(Kind::Map, u64::from(name));
    wants::push_under(desk, name, element, depth - 1, room, deep_body);
    wants::push_child(desk, element + 1, room, !deep_body);
}

// Writes a filter.
fn make_filter(desk: &mut Desk, depth: u8, room: Room)
    requires { (0 < room.levels) × (0 < depth) }
{
    let name = wants::binding_name(desk);
    let deep_body = desk.chance(2);
    let old = desk.known(name);
    desk.write(Kind::Filter, u64::from(name));
    wants::push_binding(desk, name, old);
    wants::push_guard(desk, room, deep_body);
    wants::push_binding(desk, name, Some(depth - 1));
    wants::push_child(desk, depth, room, !deep_body);
}

// Asks for a count: mostly a low one, at times the greatest or one more, and at times any number.
fn push_count(desk: &mut Desk, room: Room)
    requires { 0 < room.levels }
{
    match desk.choose(12) {
        0..=2 => wants::push_child(desk, 0, room, false),
        choice @ 3..=4 => wants::push_node(desk, Kind::Number, 13 + choice),
        choice => wants::push_node(desk, Kind::Number, choice % 4),
    }
}

// Writes an iota; on a spine its count goes deep.
fn make_iota(desk: &mut Desk, room: Room)
    requires { 0 < room.levels }
{
    desk.write(Kind::Iota, 0);
    if room.spine {
        return wants::push_child(desk, 0, room, true);
    }
    push_count(desk, room)
}

// Writes a replicate.
fn make_replicate(desk: &mut Desk, depth: u8, room: Room)
    requires { (0 < room.levels) × (0 < depth) }
{
    desk.write(Kind::Replicate, 0);
    wants::push_child(desk, depth - 1, room, true);
    push_count(desk, room)
}

// Writes a node that makes an array of a count's length.
fn make_counted(desk: &mut Desk, depth: u8, room: Room)
    requires { (0 < room.levels) × (0 < depth) }
{
    if depth == 1 && desk.choose(3) < 2 {
        return make_iota(desk, room);
    }
    make_replicate(desk, depth, room)
}

// Writes a node that only arrays have.
pub fn make_array(desk: &mut Desk, depth: u8, room: Room)
    requires { (0 < room.levels) × (0 < depth) }
{
    match desk.choose(11) {
        0..=3 => make_map(desk, depth, room),
        4 | 5 => make_filter(desk, depth, room),
        6 | 7 => make_counted(desk, depth, room),
        _ => make_literal(desk, depth, room),
    }
}
