// The calls that have a store, each named by its part of the tally. A call is lent code arrays that hold something else
// before it, of the lengths that a line gives as its words 1 and 2. After it both are compared with the code as
// `engine_translate` gives it.
use test_text::{MOST_LINES, Part, Saved, Store, Tally};

// Makes the delivery of a line with these code arrays; one that gives no more than lengths has budget 0 and no
// readings.
fn deliver(
    line: &[u8],
    file: &[u8],
    kinds: &mut [u8],
    operands: &mut [i64],
    store: &mut Store,
) -> u64 {
    let mut readings = [0i64; 32];
    let count = test_text::readings_of(line, 5, &mut readings);
    let budget = test_text::natural(line, 3);
    store.lend(|slots, heads| {
        engine::engine_deliver(
            file,
            kinds,
            operands,
            slots,
            heads,
            &readings[..count],
            budget,
        )
    })
}

// Saves the totals of a store, with these code arrays. The buffer is counted where it is right.
fn save(
    line: &[u8],
    file: &[u8],
    kinds: &mut [u8],
    operands: &mut [i64],
    store: &Store,
    tally: &mut Tally,
) -> u64 {
    let mut saved = Saved::lent(Part::Save, line);
    let answer = engine::engine_save(
        file,
        kinds,
        operands,
        store.slots(),
        store.heads(),
        saved.buffer(),
    );
    tally.count_store(saved.is_as_said(line), saved.lent_bytes().len());
    answer
}

// Makes a call with these code arrays. A check and a save are lent the store as `&`, so no word of it can change, and
// nor can the bytes lent to a restore.
fn make(
    call: Part,
    line: &[u8],
    file: &[u8],
    kinds: &mut [u8],
    operands: &mut [i64],
    store: &mut Store,
    tally: &mut Tally,
) -> u64 {
    match call {
        Part::Open => store.lend(|slots, heads| {
            engine::engine_open(file, kinds, operands, slots, heads)
        }),
        Part::Check => { engine::engine_check(file, kinds, operands, store.slots(), store.heads()) }
        Part::Save => save(line, file, kinds, operands, store, tally),
        Part::Restore => {
            let saved = Saved::lent(Part::Restore, line);
            store.lend(|slots, heads| {
                engine::engine_restore(file, kinds, operands, slots, heads, saved.lent_bytes())
            })
        }
        _ => deliver(line, file, kinds, operands, store),
    }
}

// Whether a call on this file with this answer leaves these code arrays: all zero after a refusal, and else the code as
// `engine_translate` gives it. (arrays, here and below, and no `Code`: a struct of them is copied where it is made)
fn is_left(answer: u64, file: &[u8], kinds: &[u8], operands: &[i64]) -> bool {
    let mut wanted_kinds = [0u8; MOST_LINES];
    let mut wanted_operands = [0i64; MOST_LINES];
    if !test_text::is_refusal(test_text::number_of(answer)) {
        engine::engine_translate(file, &mut wanted_kinds, &mut wanted_operands);
    }
    wanted_kinds.starts_with(kinds) && wanted_operands.starts_with(operands)
}

// Makes a call of which this number is wanted; its answer. The code arrays are counted where they are right, and so is
// the buffer of a save. After a refusal or a stop the store is compared with the words that it must have then, but not
// after a check or a save.
pub fn run(
    call: Part,
    line: &[u8],
    file: &[u8],
    store: &mut Store,
    number: usize,
    tally: &mut Tally,
) -> u64 {
    let compared = number != 0 && call != Part::Check && call != Part::Save;
    let ended = if compared {
        Some(store.ended(call, number))
    } else {
        None
    };
    let mut kinds = [170u8; MOST_LINES];
    let mut operands = [-170i64; MOST_LINES];
    let lent_kinds = &mut kinds[..test_text::length_of(line, 1, MOST_LINES)];
    let lent_operands = &mut operands[..test_text::length_of(line, 2, MOST_LINES)];
    tally.turn_to(call, number);
    let answer = make(call, line, file, lent_kinds, lent_operands, store, tally);
    let words = lent_kinds.len() + lent_operands.len();
    tally.count_code(is_left(answer, file, lent_kinds, lent_operands), words);
    if let Some(ended) = &ended {
        tally.count_store(store.is_same(ended), store.words());
    }
    answer
}
