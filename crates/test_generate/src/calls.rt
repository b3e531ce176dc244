// Calls. They fall: a function calls those after it and, if it has a falling number, itself and others that have one,
// and at times any.
ghost use Rattle.std.specs.Prelude.{◌<◌, ◌≤◌, IfSome};

use super::{parts, wants};
use test_draft::{Desk, MOST_FUNCTIONS, MOST_PARAMETERS, Room};
use test_values::kinds::Kind;

// Whether a function has a falling number.
fn falls(desk: &Desk, function: usize) -> bool {
    desk.signature(function).is_recursive
}

// Whether the function that is written may call another: one after it, any that has a falling number if it has one
// itself, and at times any.
fn may_call(desk: &mut Desk, callee: usize) -> bool {
    let function = desk.function;
    function < callee || (falls(desk, function) && falls(desk, callee)) || desk.chance(24)
}

// Whether a function is there, gives this depth and may be called here.
fn fits_call(desk: &mut Desk, callee: usize, depth: u8) -> bool {
    callee < desk.functions && desk.signature(callee).result == depth && may_call(desk, callee)
}

// A function to call here that gives this depth, if there is one.
fn find_callee(desk: &mut Desk, depth: u8) -> Option<usize>
    ensures { IfSome result (λ callee. callee < 32) }
{
    let start = desk.choose(MOST_FUNCTIONS as u64) as usize;
    for i in 0..MOST_FUNCTIONS {
        let callee = (start + i) % MOST_FUNCTIONS;
        if fits_call(desk, callee, depth) {
            return Some(callee);
        }
    }
    None
}

// Where the falling number of a function starts: also near the greatest call depth.
fn falling_start(desk: &mut Desk) -> u64 {
    match desk.choose(8) {
        0 => 29,
        1 => 30,
        2 => 31,
        3 => 40,
        _ => desk.choose(5),
    }
}

// Asks for the falling number of a function: within a function that has one it is that number less 1.
fn push_falling(desk: &mut Desk) {
    let function = desk.function;
    if falls(desk, function) {
        wants::push_node(desk, Kind::Number, 1);
        wants::push_node(desk, Kind::Name, u64::from(wants::FALLING));
        return wants::push_node(desk, Kind::Difference, 0);
    }
    let start = falling_start(desk);
    wants::push_node(desk, Kind::Number, start)
}

// Asks for an argument: half of them are names that are passed on.
fn push_argument(desk: &mut Desk, depth: u8, room: Room)
    requires { 0 < room.levels }
{
    match wants::find_name(desk, depth) {
        Some(name) if desk.chance(2) => { wants::push_node(desk, Kind::Name, u64::from(name)) }
        _ => wants::push_child(desk, depth, room, false),
    }
}

// Asks for the arguments of a call, the last first.
fn push_arguments(desk: &mut Desk, callee: usize, count: usize, room: Room)
    requires { (0 < room.levels) × (count ≤ 8) }
{
    let signature = desk.signature(callee);
    for i in (0..count).rev() {
        if i == 0 && signature.is_recursive {
            return push_falling(desk);
        }
        push_argument(desk, signature.depths[i], room);
    }
}

// Writes a call; an if where no function fits.
pub fn make_call(desk: &mut Desk, depth: u8, room: Room)
    requires { 0 < room.levels }
{
    let Some(callee) = find_callee(desk, depth) else {
        return parts::make_if(desk, depth, room);
    };
    let count = desk.signature(callee).count.min(MOST_PARAMETERS);
    desk.write(Kind::Call, callee as u64 + 256 * count as u64);
    push_arguments(desk, callee, count, room)
}
