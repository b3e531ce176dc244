// One function's plain rows read once: which names below 8 it does not hand over, and a link for each that it passes
// on.
ghost use Rattle.std.specs.Prelude.{◌≡◌, ◌+◌, ◌<◌, ◌≤◌, ◌%◌, ◌/◌, length};
ghost use Rattle.borrow_table.specs.Scan.{atoms_after, atoms_by, hands_by, link_in, links_in, Scanned};

// The links of the functions that were read: the first `count` of the list, which has room for all: fixed memory.
#[derive(Drop)]
pub struct Links {
    pub list: [u32; 1024],
    pub count: usize,
}

// How many atoms a line of a kind has, m if it says so itself.
fn atoms_by(kind: u8, m: u8) -> usize
    ensures { result ≡ atoms_by kind m }
{
    match kind {
        kinds::CALL | kinds::LITERAL => m as usize,
        kinds::LENGTH | kinds::IF | kinds::MAP | kinds::END | kinds::IOTA | kinds::FILTER => 1,
        _ => 2,
    }
}

// How many atoms stand after the row of a line or an end.
fn atoms_after(row: u32) -> usize
    ensures { result ≡ atoms_after row }
{
    let [kind, _, _, m] = row.to_le_bytes();
    atoms_by(kind, m)
}

// Whether an atom is handed over outside of calls, where so many more of its line follow it.
fn hands_by(kind: u8, more: usize) -> bool
    ensures { result ≡ hands_by kind more }
{
    match kind {
        kinds::LITERAL | kinds::END => true,
        kinds::REDUCE => more == 1,
        _ => false,
    }
}

// The link of function f for the name v of a call, where so many more atoms follow it.
fn link_in(f: usize, line: u32, more: usize, v: u32) -> u32
    requires { (f < 32) × (v < 8) × (more < line / 16777216 % 256) }
    ensures { result ≡ link_in f line more v }
{
    let [_, _, callee, count] = line.to_le_bytes();
    u32::from_le_bytes([f as u8, v as u8, callee, count - (more as u8 + 1)])
}

// The first q rows are read: the links of function f are put after those that there are. The answer is which of the
// first eight names the function does not hand over outside of calls.
pub fn gather(rows: &plain_rows::Rows, q: usize, f: usize, links: &mut Links) -> [bool; 8]
    requires q_bound { q ≤ 2048 }
    requires f_bound { f < 32 }
    requires q_bound_2 { links.old.count + length (links_in rows.now f q) ≤ 1024 }
    ensures { Scanned rows.now f q links.old.count links.old.list result links.new.list links.new.count }
{
    let mut names = [true; 8];
    let mut line: u32 = 0;
    let mut left: usize = 0;
    for p in 0..q {
        let v = rows[p];
        if left == 0 {
            line = v;
            left = atoms_after(v);
            continue;
        }
        left -= 1;
        if 8 <= v {
            continue;
        }
        let [kind, ..] = line.to_le_bytes();
        if kind == kinds::CALL {
            links.list[links.count] = link_in(f, line, left, v);
            links.count += 1;
        } else if hands_by(kind, left) {
            names[v as usize] = false;
        }
    }
    names
}
