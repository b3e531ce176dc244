// The table of borrowed parameters, reworked until a round changes nothing.
ghost use Rattle.std.specs.Prelude.{◌≡◌, ◌<◌, ◌≤◌, length, take};
ghost use Rattle.soundness.proofs.borrowing.Rounds.{Shaped};
ghost use Rattle.borrow_table.specs.Rounds.{Followed, Reworked, Settled};

use super::scan::Links;

// The entry, of 256, of place i of function f.
fn entry_of(f: u8, i: u8) -> u8 {
    f.wrapping_mul(8).wrapping_add(i)
}

// A link whose place is not borrowed takes its name's entry away; whether it did.
fn follow(t: &mut [[bool; 8]; 32], link: u32) -> bool
    requires { Shaped t.old }
    ensures { Followed link t.old t.new result }
{
    let [f, i, callee, place] = link.to_le_bytes();
    let f = f as usize;
    let i = i as usize;
    let taken = f < 32 && i < 8 && t[f][i] && !plain_rows::is_borrowed(t, callee, place as usize);
    if taken {
        t[f][i] = false;
    }
    taken
}

// Notes the entry of the name that a link passes after the m entries that there are, of 256; how many there are then.
fn note(gone: &mut [u8; 256], m: usize, link: u32) -> usize
    requires { m ≤ 256 }
    ensures { (0 < result) × (result ≤ 256) }
{
    if m == 256 {
        return m;
    }
    let [f, i, _, _] = link.to_le_bytes();
    gone[m] = entry_of(f, i);
    m + 1
}

// One round: every link is followed, and then those that lead to the entries that were taken away; whether there were
// any. The links that lead to one place are chained: heads has the last one's number, and after the one's before each.
// They are numbered from 1, and 0 is no link: a number and no Option, since a chain's entry is kept in two bytes. All
// lists are arrays with room for the most there can be: fixed memory.
fn rework(t: &mut [[bool; 8]; 32], links: &Links, after: &mut [u16; plain_rows::ROWS]) -> bool
    requires shaped { Shaped t.old }
    requires n_bound { links.now.count ≤ 1024 }
    ensures reworked { Reworked (take links.now.count links.now.list) t.old t.new result }
    ensures after_len { length after.new ≡ 2048 }
{
    let mut heads = [0u16; 256];
    let mut gone = [0u8; 256];
    let mut m: usize = 0;
    for k in 0..links.count {
        let link = links.list[k];
        let [_, _, callee, place] = link.to_le_bytes();
        let e = entry_of(callee, place) as usize;
        after[k] = heads[e];
        heads[e] = (k + 1) as u16;
        if follow(t, link) {
            m = note(&mut gone, m, link);
        }
    }
    let mut p: usize = 0;
    // (a `while`: more entries may be noted while they are taken one by one)
    while p < m {
        let mut j = heads[gone[p] as usize] as usize;
        p += 1;
        // (a `while`: it goes down a chain, whose links say where the next is)
        while 0 < j && j <= links.count {
            let k = j - 1;
            let before = plain_rows::note_at(after, k);
            if k < before {
                break;
            }
            j = before;
            let link = links.list[k];
            if follow(t, link) {
                m = note(&mut gone, m, link);
            }
        }
    }
    0 < m
}

// The table after the last round.
pub fn work_out(
    mut t: [[bool; 8]; 32],
    links: &Links,
    after: &mut [u16; plain_rows::ROWS],
) -> [[bool; 8]; 32]
    requires shaped { Shaped t }
    requires n_bound { links.now.count ≤ 1024 }
    ensures settled { Settled (take links.now.count links.now.list) t result }
    ensures after_len { length after.new ≡ 2048 }
{
    // (a `while`: no number says how many rounds there are)
    'rounds: while rework(&mut t, links, after) {}
    t
}
