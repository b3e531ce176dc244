// Sums, differences and comparisons of numbers, which are given as their bits.
use super::kinds::Kind;
use super::{Stop, Value, Worked};

// Whether a number is below 0.
fn is_negative(a: u64) -> bool {
    a.cast_signed() < 0
}

// The sum of two numbers; it overflows where they have one sign and the sum of the bits has the other.
fn sum(a: u64, b: u64) -> Worked {
    let r = a.wrapping_add(b);
    if is_negative(a) == is_negative(b) && is_negative(a) != is_negative(r) {
        return Err(Stop::Overflow);
    }
    Ok(Value::number(r))
}

// The difference of two numbers; it overflows where their signs differ and the result has the sign of the second.
fn difference(a: u64, b: u64) -> Worked {
    let r = a.wrapping_sub(b);
    if is_negative(a) != is_negative(b) && is_negative(a) != is_negative(r) {
        return Err(Stop::Overflow);
    }
    Ok(Value::number(r))
}

// 1 where a is less than b, and else 0.
fn less(a: u64, b: u64) -> u64 {
    u64::from(a.cast_signed() < b.cast_signed())
}

// The result of an operation on two numbers.
pub fn operate(kind: Kind, a: u64, b: u64) -> Worked {
    match kind {
        Kind::Sum => sum(a, b),
        Kind::Difference => difference(a, b),
        Kind::Less => Ok(Value::number(less(a, b))),
        _ => Err(Stop::Broken),
    }
}
