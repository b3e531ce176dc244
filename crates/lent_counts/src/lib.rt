// How many references each name holds, by value: the counts of the third walk over lent code.
#![tactic(auto)]

ghost use Rattle.std.specs.Prelude.{◌≡◌};
ghost use Rattle.semantics_lent.specs.Hold.{same_holds, none_bound};
ghost use Rattle.lent_counts.specs.Counted.{counted, set_of, kept_out};

// Whether each name holds as many by both.
#[tactic(auto, using(crate::proofs::Laws::same_so))]
pub fn same_counts(a: &[u16; 256], b: &[u16; 256]) -> bool
    ensures { result ≡ same_holds (counted a.now) (counted b.now) }
{
    a == b
}

// Whether a name may be held at the end of a branch: it holds nothing, or held some before, or is lent.
fn may_hold(lent: bool, before: u16, after: u16) -> bool
    ensures { result ≡ kept_out lent before after }
{
    after == 0 || lent || 0 < before
}

// Whether a tree leaves no hold on a name bound in it. The loop goes on after a test fails, and so is worked many names
// at a time: `all` over the range took five times as long at least.
pub fn none_bound(lent: &[bool; 256], before: &[u16; 256], after: &[u16; 256]) -> bool
    ensures { result ≡ none_bound (set_of lent.now) (counted before.now)
        (counted after.now) }
{
    let mut none = true;
    for i in 0..256 {
        none &= may_hold(lent[i], before[i], after[i]);
    }
    none
}
