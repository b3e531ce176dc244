// Lent arrays cleared: one value from a place on. A place past the end clears nothing.
#![tactic(auto)]

ghost use Rattle.std.specs.Prelude.{◌≡◌, ◌++◌, ◌-◌, pos, length, take, replicate};

// One value from a place on.
pub fn clear_from<T: Copy>(items: &mut [T], from: usize, value: T)
    ensures { items.new
        ≡ take from items.old ++ replicate (length items.old - from) value }
{
    for i in from..items.len() {
        items[i] = value;
    }
}

// Both code arrays all zero, as every refusal leaves them.
pub fn clear_code(kinds: &mut [u8], operands: &mut [i64])
    ensures { (kinds.new ≡ replicate (length kinds.old) 0)
        × (operands.new ≡ replicate (length operands.old) (pos 0)) }
{
    kinds.fill(0);
    operands.fill(0);
}
