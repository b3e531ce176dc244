// The names that rows of lent code spend or retain, by a table of borrowed parameters: atoms that are handed over, and
// names that are retained or released.
#![tactic(auto)]

ghost use Rattle.std.specs.Prelude.{◌≡◌, ◌-◌, ◌≤◌, length};
ghost use Rattle.semantics.specs.Borrow.{borrows};
ghost use Rattle.lent_spent.specs.Scan.{set_of, second_at, is_handed, is_named, spent_from};

// Whether the atom at place i of a line is handed over, by the line's kind and, of a call, its function.
fn is_handed(borrowed: &[[bool; 8]; 32], kind: u8, g: u8, i: usize) -> bool
    ensures { result ≡ is_handed (borrows borrowed.now) kind g i }
{
    match kind {
        kinds::CALL => !plain_rows::is_borrowed(borrowed, g, i),
        kinds::LITERAL | kinds::END | kinds::REWRITE => true,
        kinds::REDUCE => i == 0,
        _ => false,
    }
}

// Whether a line retains or releases the name of its operand.
fn is_named(kind: u8) -> bool
    ensures { result ≡ is_named kind }
{
    matches!(kind, kinds::RETAIN | kinds::RELEASE)
}

// The second byte of the operand at a position.
fn second_at(operands: &[i64], at: usize) -> u8
    ensures { result ≡ second_at operands.now at }
{
    (machine_code::low_bits(words::get_or(operands, at, 0)) / 256 % 256) as u8
}

// The names that the rows from one line to before another spend or retain.
pub fn spent_in(
    kinds: &[u8],
    operands: &[i64],
    borrowed: &[[bool; 8]; 32],
    from: usize,
    to: usize,
) -> [bool; 256]
    requires { to ≤ 65535 }
    ensures { (set_of result ≡ spent_from kinds.now operands.now
        (borrows borrowed.now) (to - from) from 0 0 0) × (length result ≡ 256) }
{
    let mut spent = [false; 256];
    let mut line: u8 = 0;
    let mut g: u8 = 0;
    let mut i: usize = 0;
    for p in from..to {
        let kind = words::get_or(kinds, p, 0);
        match kind {
            kinds::NUMBER => i += 1,
            kinds::NAME => {
                if is_handed(borrowed, line, g, i) {
                    spent[machine_code::name_at(operands, p) as usize] = true;
                }
                i += 1;
            }
            _ => {
                line = kind;
                g = second_at(operands, p);
                i = 0;
                if is_named(kind) {
                    spent[machine_code::name_at(operands, p) as usize] = true;
                }
            }
        }
    }
    spent
}
