// Lent code judged: form, then depth and scope, then holds, each over the whole code before the next.
#![tactic(auto)]

ghost use Rattle.std.specs.Prelude.{◌≤◌, length};
ghost use Rattle.lent_judge.specs.Judging.{JudgesCode};

use lent_form::{Fault, Formed};

// Judges the code of two arrays for main of a depth: how many lines it has, or the line at fault. The table gets the
// depths of names and, where it has room for them, the positions of functions and those after trees.
#[tactic(auto, using(crate::proofs::Laws::judge_laws))]
pub fn judge(kinds: &[u8], operands: &[i64], depth: u64, table: &mut [u8]) -> Result<usize, Fault>
    requires { 8192 ≤ length table.old }
    ensures { JudgesCode kinds.now operands.now depth table.old result
        table.new }
{
    let mut starts = [0usize; 32];
    let Formed { lines, functions } = lent_form::form(kinds, operands, &mut starts)?;
    let ks = &kinds[..lines];
    let os = &operands[..lines];
    // no `?` here and below: the proof would name the arm by its call, and an edit that tells another fault add a call
    if let Err(unfit) = lent_fit::fit(ks, os, &starts, functions, depth, table) {
        return Err(unfit);
    }
    let borrowed = lent_table::borrow_table(ks, os, &starts, functions);
    if let Err(unheld) = lent_hold::hold(ks, os, functions as u8, table, &borrowed) {
        return Err(unheld);
    }
    machine_table::fill(ks, functions, lines, &starts, table);
    Ok(lines)
}
