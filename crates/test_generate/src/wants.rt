// What the parts of a script want: names, depths, and items on the agenda for parts of their own.
ghost use Rattle.std.specs.Prelude.{◌<◌, ◌≤◌};

use test_draft::{Desk, Item, Node, Room};
use test_values::kinds::Kind;

// The names that scripts use, from both ends of their range. The first is the falling number of a function that calls
// itself.
pub const NAMES: [u8; 8] = [0, 1, 2, 3, 4, 5, 254, 255];

pub const FALLING: u8 = NAMES[0];

// The greatest depth.
pub const MOST_DEPTH: u8 = 4;

// A name of this depth, if one is known.
pub fn find_name(desk: &mut Desk, depth: u8) -> Option<u8> {
    let start = desk.choose(8) as usize;
    for i in 0..8 {
        let name = NAMES[(start + i) % 8];
        if desk.known(name) == Some(depth) {
            return Some(name);
        }
    }
    None
}

// A name to bind; the falling number of a function that calls itself keeps its name.
pub fn binding_name(desk: &mut Desk) -> u8 {
    if desk.signature(desk.function).is_recursive {
        NAMES[desk.choose(7) as usize + 1]
    } else {
        NAMES[desk.choose(8) as usize]
    }
}

// A depth; the lower ones more often.
pub fn some_depth(desk: &mut Desk) -> u8
    ensures { result ≤ 4 }
{
    match desk.choose(10) {
        0 => MOST_DEPTH,
        1 => 3,
        2 | 3 => 2,
        4..=6 => 1,
        _ => 0,
    }
}

// Asks for a part of this depth.
pub fn push_part(desk: &mut Desk, depth: u8, levels: u64, spine: bool) {
    let room = Room { levels, spine };
    desk.push(Item::Part { depth, room });
}

// Asks for a node that is fixed.
pub fn push_node(desk: &mut Desk, kind: Kind, operand: u64) {
    desk.push(Item::Node(Node { kind, operand }));
}

// Asks that a name gets another depth, or its old one back.
pub fn push_binding(desk: &mut Desk, name: u8, depth: Option<u8>) {
    desk.push(Item::Binding { name, depth });
}

// Asks for a part of a node that has this room. On a spine only the chosen part goes deep.
pub fn push_child(desk: &mut Desk, depth: u8, room: Room, chosen: bool)
    requires { 0 < room.levels }
{
    if room.spine {
        let levels = if chosen { room.levels - 1 } else { 1 };
        return push_part(desk, depth, levels, chosen);
    }
    let few = desk.choose(5);
    let is_short = desk.chance(2) && few < room.levels;
    push_part(
        desk,
        depth,
        if is_short { few } else { room.levels - 1 },
        false,
    )
}

// Asks for a guard: mostly a comparison, at times 1 or 0, and at times any number.
pub fn push_guard(desk: &mut Desk, room: Room, chosen: bool)
    requires { 0 < room.levels }
{
    let choice = desk.choose(10);
    let answer = desk.choose(2);
    if choice == 0 {
        return push_child(desk, 0, room, chosen);
    }
    if room.levels < 3 || (choice == 1 && !chosen) {
        return push_node(desk, Kind::Number, answer);
    }
    let below = Room {
        levels: room.levels - 1,
        spine: room.spine,
    };
    push_child(desk, 0, below, chosen);
    push_child(desk, 0, below, false);
    push_node(desk, Kind::Less, 0)
}

// Asks for a part of this depth in which a name has another; after it the name has its old one.
pub fn push_under(desk: &mut Desk, name: u8, named: u8, depth: u8, room: Room, chosen: bool)
    requires { 0 < room.levels }
{
    let old = desk.known(name);
    push_binding(desk, name, old);
    push_child(desk, depth, room, chosen);
    push_binding(desk, name, Some(named));
}
