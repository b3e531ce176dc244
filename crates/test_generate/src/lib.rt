// Scripts made from a seed, for comparing two interpreters: every node kind, depths to 4, levels to 64, shared and
// shadowed names, counts and guards in range and out of it, and functions that call themselves and one another and
// pass on what they take.
#![tactic(auto)]

mod arrays;
mod calls;
mod parts;
pub mod scripts;
mod wants;
