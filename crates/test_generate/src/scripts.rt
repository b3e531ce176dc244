// Whole scripts: signatures, then each function by the agenda.
ghost use Rattle.std.specs.Prelude.{◌<◌, ◌≤◌};

use super::wants::{MOST_DEPTH, NAMES};
use super::{parts, wants};
use test_draft::{Desk, Item, MOST_FUNCTIONS, MOST_PARAMETERS, NO_SIGNATURE, Room, Signature};
use test_values::kinds::Kind;

// Main takes the totals, whose depth is also the result's, and the readings.
fn main_signature(depth: u8) -> Signature {
    Signature {
        count: 2,
        result: depth,
        is_recursive: false,
        depths: [depth, 1, 0, 0, 0, 0, 0, 0],
    }
}

// How many parameters a function has that does not call itself: mostly a few, at times 8.
fn choose_count(desk: &mut Desk) -> usize
    ensures { result ≤ 8 }
{
    if desk.chance(8) {
        return MOST_PARAMETERS;
    }
    desk.choose(4) as usize
}

// A depth for a function's signature: half of the time it is that of the function before, if there is one, which can
// then pass on what it takes.
fn choose_depth(desk: &mut Desk, before: Option<u8>) -> u8
    ensures { result ≤ 4 }
{
    let other = wants::some_depth(desk);
    match before {
        Some(depth) if !desk.chance(2) => depth.min(MOST_DEPTH),
        _ => other,
    }
}

// Chooses the signature of a function, after that of the function before. One that calls itself takes a falling number
// first.
fn choose_signature(desk: &mut Desk, before: Option<Signature>) -> Signature {
    let Some(before) = before else {
        return main_signature(choose_depth(desk, None));
    };
    let mut signature = NO_SIGNATURE;
    signature.result = choose_depth(desk, Some(before.result));
    for i in 0..MOST_PARAMETERS {
        signature.depths[i] = choose_depth(desk, Some(before.depths[i]));
    }
    signature.count = choose_count(desk);
    if desk.chance(2) {
        signature.count = 1 + signature.count % 4;
        signature.is_recursive = true;
        signature.depths[0] = 0;
    }
    signature
}

// Chooses the signatures of all functions.
fn choose_signatures(desk: &mut Desk, functions: usize)
    requires { functions ≤ 32 }
{
    desk.functions = functions;
    let mut before = None;
    for function in 0..functions {
        let signature = choose_signature(desk, before);
        desk.signatures[function] = signature;
        before = Some(signature);
    }
}

// Forgets all names.
fn clear_names(desk: &mut Desk) {
    for name in NAMES {
        desk.set_known(name, None);
    }
}

// Writes the parameters of a function, and knows them from now on.
fn write_parameters(desk: &mut Desk, signature: &Signature) {
    for i in 0..signature.count.min(MOST_PARAMETERS) {
        let name = NAMES[i];
        let depth = signature.depths[i];
        desk.write(Kind::Parameter, u64::from(name) + 256 * u64::from(depth));
        desk.set_known(name, Some(depth));
    }
}

// Does what an item of the agenda asks for.
fn take_item(desk: &mut Desk, item: Item) {
    match item {
        Item::Part { depth, room } => parts::make_part(desk, depth.min(MOST_DEPTH), room),
        Item::Binding { name, depth } => desk.set_known(name, depth),
        Item::Node(node) => desk.write(node.kind, node.operand),
    }
}

// Works the agenda off.
fn take_items(desk: &mut Desk) {
    for _ in 0..8192 {
        let Some(item) = desk.pop() else {
            return;
        };
        take_item(desk, item);
    }
}

// Asks for the body of a function that calls itself: mostly only while its number is above 0.
fn push_recursive(desk: &mut Desk, depth: u8) {
    if desk.chance(6) {
        return wants::push_part(desk, depth, 7, false);
    }
    wants::push_part(desk, depth, 2, false);
    wants::push_part(desk, depth, 7, false);
    wants::push_node(desk, Kind::Name, u64::from(wants::FALLING));
    wants::push_node(desk, Kind::Number, 0);
    wants::push_node(desk, Kind::Less, 0);
    wants::push_node(desk, Kind::If, 0);
}

// Asks for the body of a function; at times it is a spine to the last level.
fn push_body(desk: &mut Desk, signature: &Signature) {
    if signature.is_recursive {
        return push_recursive(desk, signature.result);
    }
    if desk.chance(10) {
        desk.limit = 1000;
        return wants::push_part(desk, signature.result, 64, true);
    }
    let levels = 4 + desk.choose(8);
    wants::push_part(desk, signature.result, levels, false)
}

// Writes a function: no name is known, and its nodes are limited.
fn write_function(desk: &mut Desk, function: usize) {
    desk.function = function;
    desk.limit = desk.written() % 1024 + 15 + desk.choose(90) as usize;
    clear_names(desk);
    let signature = desk.signature(function);
    let count = signature.count.min(MOST_PARAMETERS);
    desk.write(
        Kind::Function,
        count as u64 + 256 * u64::from(signature.result),
    );
    write_parameters(desk, &signature);
    push_body(desk, &signature);
    take_items(desk)
}

// Makes a script from a seed.
pub fn make_script(seed: u64) -> Desk {
    let mut desk = Desk::new(seed);
    let functions = 1 + desk.choose(8) as usize;
    choose_signatures(&mut desk, functions);
    for function in 0..functions {
        write_function(&mut desk, function);
    }
    desk
}
