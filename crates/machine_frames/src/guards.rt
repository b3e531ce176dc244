// The guard of an if: whether it is an answer, and what it says of the two trees.
ghost use Rattle.std.specs.Prelude.{◌≡◌};
ghost use Rattle.semantics.specs.Number.{is_answer};
ghost use Rattle.machine_frames.specs.Frames.{branch_start, branch_end};

// Whether a word is 1 for yes or 0 for no.
pub fn is_answer(w: i64) -> bool
    ensures { result ≡ is_answer w }
{
    w >= 0 && w <= 1
}

// Where the branch of an if begins, by the word of its guard: the first tree, at a position, or the second.
pub fn branch_start(table: &[u8], guard: i64, at: usize) -> usize
    ensures { result ≡ branch_start table.now guard at }
{
    if guard == 0 {
        machine_code::end_in(table, at)
    } else {
        at
    }
}

// Where the code goes on after an if, by the word of its guard and the position after the tree that was worked.
pub fn branch_end(table: &[u8], guard: i64, next: usize) -> usize
    ensures { result ≡ branch_end table.now guard next }
{
    if guard == 0 {
        next
    } else {
        machine_code::end_in(table, next)
    }
}
