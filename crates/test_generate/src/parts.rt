// Parts of a script. A node is written when its item is taken, and items for its parts go on the agenda, the last
// part first.
ghost use Rattle.std.specs.Prelude.{◌<◌, ◌≤◌};

use super::wants::MOST_DEPTH;
use super::{arrays, calls, wants};
use test_draft::{Desk, Room};
use test_values::kinds::Kind;

// Writes a leaf: a name, a number or an empty literal.
fn make_leaf(desk: &mut Desk, depth: u8)
    requires { depth ≤ 4 }
{
    let found = wants::find_name(desk, depth);
    let other = desk.chance(5);
    match found {
        Some(name) if !other => desk.write(Kind::Name, u64::from(name)),
        _ if depth == 0 => {
            let bits = desk.number();
            desk.write(Kind::Number, bits)
        }
        _ => desk.write(Kind::Literal, 256 * u64::from(depth - 1)),
    }
}

// Writes a let.
fn make_let(desk: &mut Desk, depth: u8, room: Room)
    requires { 0 < room.levels }
{
    let name = wants::binding_name(desk);
    let bound = wants::some_depth(desk);
    let deep_body = desk.chance(2);
    desk.write(Kind::Let, u64::from(name));
    wants::push_under(desk, name, bound, depth, room, deep_body);
    wants::push_child(desk, bound, room, !deep_body);
}

// The second name of a reduce: at times the same as the first.
fn second_name(desk: &mut Desk, first: u8) -> u8 {
    if desk.chance(4) {
        first
    } else {
        wants::binding_name(desk)
    }
}

// Writes a reduce.
fn make_reduce(desk: &mut Desk, depth: u8, room: Room)
    requires { 0 < room.levels }
{
    let first = wants::binding_name(desk);
    let second = second_name(desk, first);
    let element = desk.choose(4) as u8;
    let chosen = desk.choose(4);
    let old = desk.known(first);
    desk.write(Kind::Reduce, u64::from(first) + 256 * u64::from(second));
    wants::push_binding(desk, first, old);
    wants::push_under(desk, second, element, depth, room, chosen < 2);
    wants::push_binding(desk, first, Some(depth));
    wants::push_child(desk, element + 1, room, chosen == 2);
    wants::push_child(desk, depth, room, chosen == 3);
}

// Writes an if.
pub fn make_if(desk: &mut Desk, depth: u8, room: Room)
    requires { 0 < room.levels }
{
    let chosen = desk.choose(3);
    desk.write(Kind::If, 0);
    wants::push_child(desk, depth, room, chosen == 2);
    wants::push_child(desk, depth, room, chosen == 1);
    wants::push_guard(desk, room, chosen == 0);
}

// Asks for a position, mostly a low one.
fn push_position(desk: &mut Desk, room: Room)
    requires { 0 < room.levels }
{
    if desk.chance(5) {
        return wants::push_child(desk, 0, room, false);
    }
    let position = desk.choose(2);
    wants::push_node(desk, Kind::Number, position)
}

// Writes an index.
fn make_index(desk: &mut Desk, depth: u8, room: Room)
    requires { (0 < room.levels) × (depth < 4) }
{
    desk.write(Kind::Index, 0);
    push_position(desk, room);
    wants::push_child(desk, depth + 1, room, true)
}

// Asks whether a position is below the length of a name.
fn push_test(desk: &mut Desk, name: u8, position: u64) {
    wants::push_node(desk, Kind::Name, u64::from(name));
    wants::push_node(desk, Kind::Length, 0);
    wants::push_node(desk, Kind::Number, position);
    wants::push_node(desk, Kind::Less, 0)
}

// Writes an index of a name under an if that tests its length; a let where no name fits.
fn make_tested_index(desk: &mut Desk, depth: u8, room: Room)
    requires { (0 < room.levels) × (depth < 4) }
{
    let Some(name) = wants::find_name(desk, depth + 1) else {
        return make_let(desk, depth, room);
    };
    let position = desk.choose(3);
    desk.write(Kind::If, 0);
    wants::push_part(desk, depth, 1, false);
    wants::push_node(desk, Kind::Number, position);
    wants::push_node(desk, Kind::Name, u64::from(name));
    wants::push_node(desk, Kind::Index, 0);
    push_test(desk, name, position)
}

// Writes a sum, a difference or a comparison.
fn make_operation(desk: &mut Desk, room: Room)
    requires { 0 < room.levels }
{
    let kind = match desk.choose(3) {
        0 => Kind::Sum,
        1 => Kind::Difference,
        _ => Kind::Less,
    };
    let deep_first = desk.chance(2);
    desk.write(kind, 0);
    wants::push_child(desk, 0, room, !deep_first);
    wants::push_child(desk, 0, room, deep_first);
}

// Writes the length of an array.
fn make_length(desk: &mut Desk, room: Room)
    requires { 0 < room.levels }
{
    let element = desk.choose(4) as u8;
    desk.write(Kind::Length, 0);
    wants::push_child(desk, element + 1, room, true);
}

// Writes a node of depth 0 that only numbers have.
fn make_number(desk: &mut Desk, room: Room)
    requires { 0 < room.levels }
{
    if desk.chance(4) {
        return make_length(desk, room);
    }
    make_operation(desk, room)
}

// Writes a node that has parts.
fn make_compound(desk: &mut Desk, depth: u8, room: Room)
    requires { (0 < room.levels) × (depth ≤ 4) }
{
    let choice = desk.choose(15);
    let ample = 3 < room.levels && !room.spine;
    match choice {
        0 | 1 => make_let(desk, depth, room),
        2 => make_if(desk, depth, room),
        3 => make_reduce(desk, depth, room),
        4 if depth < MOST_DEPTH => make_index(desk, depth, room),
        5 if depth < MOST_DEPTH && ample => make_tested_index(desk, depth, room),
        4..=9 if ample => calls::make_call(desk, depth, room),
        _ if depth == 0 => make_number(desk, room),
        _ => arrays::make_array(desk, depth, room),
    }
}

// Writes a part: a leaf at the last level, past the limit, and at times elsewhere but on a spine.
pub fn make_part(desk: &mut Desk, depth: u8, room: Room)
    requires { depth ≤ 4 }
{
    let leaf = desk.chance(8) && !room.spine;
    if room.levels < 2 {
        desk.reached_last_level |= room.spine;
        return make_leaf(desk, depth);
    }
    if desk.limit < desk.written() || leaf {
        return make_leaf(desk, depth);
    }
    make_compound(desk, depth, room)
}
