// Lays rows of the plain code with the uses of names, and knows the depths of new names.
#![tactic(auto)]

pub mod atoms;

ghost use Rattle.std.specs.Prelude.{◌≡◌, [], ◌∷◌, pred, ◌+◌, ◌*◌, ◌<◌, ◌≤◌, get_or, set};
ghost use Rattle.script_read.specs.Told.{second_name};
ghost use Rattle.plain_rows.specs.Plain.{packed_row, loop_of, loop_size};
ghost use Rattle.flatten_rows.specs.Laid.{laid, firsts, noted, UsesLaid, LineLaid, place_depth, line_depth};
ghost use Rattle.flatten_rows.specs.Laid.{pass_places, loop_place, third_of};
ghost use Rattle.flatten_rows.specs.Made.{spot, out};

// Where a descent stands: the node, the next new name and the next row.
#[derive(Clone, Copy)]
pub struct Spot {
    pub node: usize,
    pub n: usize,
    pub p: usize,
}

// What a descent answers: the place of a tree's atom, and where it stands after the tree's nodes and lines.
#[derive(Clone, Copy)]
pub struct Out {
    pub place: u16,
    pub after: Spot,
}

// The first row of a line: its kind, the name that it binds and two numbers more.
#[derive(Clone, Copy)]
pub struct Head {
    pub kind: u8,
    pub name: u8,
    pub second: u8,
    pub third: u8,
}

// The row of a head.
fn packed_row(head: Head) -> u32
    ensures { result ≡ packed_row head.kind head.name head.second head.third }
{
    u32::from_le_bytes([head.kind, head.name, head.second, head.third])
}

// The use of an atom at a row: its place, and where its name was used before.
fn put_use(
    rows: &mut plain_rows::Rows,
    notes: &mut plain_rows::Notes,
    last: &mut [u16; 256],
    row: usize,
    place: u16,
)
    requires { row < 2048 }
    ensures { UsesLaid rows.old notes.old last.old rows.new
        notes.new last.new row (place ∷ []) }
{
    rows[row] = place as u32;
    if place < 256 {
        let name = place as usize;
        notes[row] = last[name];
        last[name] = row as u16;
    }
}

// A line of one atom: its head, and the atom's place.
pub fn lay_head(
    rows: &mut plain_rows::Rows,
    notes: &mut plain_rows::Notes,
    last: &mut [u16; 256],
    p: usize,
    head: Head,
    place: u16,
)
    requires { p < 2047 }
    ensures { LineLaid rows.old notes.old last.old rows.new
        notes.new last.new p (packed_row head.kind head.name head.second head.third)
        (place ∷ []) }
{
    rows[p] = packed_row(head);
    put_use(rows, notes, last, p + 1, place);
}

// The first m places of a table.
fn lay_places(
    rows: &mut plain_rows::Rows,
    notes: &mut plain_rows::Notes,
    last: &mut [u16; 256],
    p: usize,
    m: usize,
    places: &[u16; 16],
)
    requires { (p + m ≤ 2048) × (m ≤ 16) }
    ensures { UsesLaid rows.old notes.old last.old rows.new
        notes.new last.new p (firsts places.now 0 m) }
{
    for i in 0..m {
        put_use(rows, notes, last, p + i, places[i]);
    }
}

// A line of m atoms, whose places stand in a table.
fn lay_atoms(
    rows: &mut plain_rows::Rows,
    notes: &mut plain_rows::Notes,
    last: &mut [u16; 256],
    p: usize,
    head: Head,
    m: usize,
    places: &[u16; 16],
)
    requires { (p + 1 + m < 2048) × (m ≤ 16) }
    ensures { LineLaid rows.old notes.old last.old rows.new
        notes.new last.new p (packed_row head.kind head.name head.second head.third)
        (firsts places.now 0 m) }
{
    rows[p] = packed_row(head);
    lay_places(rows, notes, last, p + 1, m, places);
}

// The same, of a line without trees; the note after it says where it begins.
pub fn lay_line(
    rows: &mut plain_rows::Rows,
    notes: &mut plain_rows::Notes,
    last: &mut [u16; 256],
    p: usize,
    head: Head,
    m: usize,
    places: &[u16; 16],
) -> usize
    requires { (p + 1 + m < 2048) × (m ≤ 16) }
    ensures value { (result ≡ p + 1 + m)
        × (notes.new ≡ set (noted notes.old last.old (p + 1)
        (firsts places.now 0 m)) result p) }
    ensures line_laid { LineLaid rows.old notes.old last.old rows.new
        (noted notes.old last.old (p + 1) (firsts places.now 0 m)) last.new
        p (packed_row head.kind head.name head.second head.third) (firsts places.now 0 m) }
{
    lay_atoms(rows, notes, last, p, head, m, places);
    let q = p + 1 + m;
    notes[q] = p as u16;
    q
}

// Opens an if after its guard: its head. The answer is where its first tree begins.
pub fn open_if(
    rows: &mut plain_rows::Rows,
    notes: &mut plain_rows::Notes,
    last: &mut [u16; 256],
    guard: Out,
) -> Spot
    requires { (guard.after.n < 256) × (guard.after.p < 2040) }
    ensures value { result ≡ spot guard.after.node (guard.after.n + 1) (guard.after.p + 2) }
    ensures line_laid { LineLaid rows.old notes.old last.old rows.new
        notes.new last.new guard.after.p (packed_row 12 guard.after.n 0 0) (guard.place ∷ []) }
{
    let Spot { node, n, p } = guard.after;
    let head = Head {
        kind: kinds::IF,
        name: n as u8,
        second: 0,
        third: 0,
    };
    lay_head(rows, notes, last, p, head, guard.place);
    Spot {
        node,
        n: n + 1,
        p: p + 2,
    }
}

// The third number of a loop's row, whose name is n: a reduce's second name of a pass.
fn third_of(kind: u8, n: usize) -> u8
    requires { n + loop_size (loop_of kind) < 256 }
    ensures { result ≡ third_of (loop_of kind) n }
{
    if kind == kinds::REDUCE {
        (n + 2) as u8
    } else {
        0
    }
}

// Notes the depths of the names of a pass, which are those after n; the places of the loop's atoms stand in a table.
fn note_pass(depths: &mut [u8; 256], kind: u8, n: usize, places: &[u16; 16])
    requires { n + loop_size (loop_of kind) < 256 }
    ensures { depths.new ≡ laid depths.old (n + 1)
        (pass_places (loop_of kind) depths.old (get_or places.now 0 0)
        (get_or places.now 1 0)) }
{
    if kind == kinds::REDUCE {
        let element = element_depth(depths, places[1]);
        depths[n + 1] = depth_of(depths, places[0]);
        depths[n + 2] = element;
    } else {
        depths[n + 1] = element_depth(depths, places[0]);
    }
}

// Opens a loop after its parts, whose places stand in a table: its row, the first row of its tree, and the depths of
// the names of a pass. The answer is where its tree begins.
pub fn open_loop(
    rows: &mut plain_rows::Rows,
    notes: &mut plain_rows::Notes,
    last: &mut [u16; 256],
    depths: &mut [u8; 256],
    kind: u8,
    at: Spot,
    places: &[u16; 16],
) -> Spot
    requires { (at.n + loop_size (loop_of kind) < 256) × (at.p < 2040) }
    ensures value { (result ≡ spot at.node (at.n + 1 + loop_size (loop_of kind)) (at.p + 1 + loop_size (loop_of kind)))
        × (notes.new ≡ set (noted notes.old last.old (at.p + 1)
        (firsts places.now 0 (loop_size (loop_of kind)))) result.p result.p) }
    ensures line_laid { LineLaid rows.old notes.old last.old rows.new
        (noted notes.old last.old (at.p + 1)
        (firsts places.now 0 (loop_size (loop_of kind)))) last.new
        at.p (packed_row kind at.n (at.n + 1) (third_of (loop_of kind) at.n))
        (firsts places.now 0 (loop_size (loop_of kind))) }
    ensures depths_after { depths.new ≡ laid depths.old (at.n + 1)
        (pass_places (loop_of kind) depths.old (get_or places.now 0 0)
        (get_or places.now 1 0)) }
{
    let m = plain_rows::loop_size(kind);
    let head = Head {
        kind,
        name: at.n as u8,
        second: (at.n + 1) as u8,
        third: third_of(kind, at.n),
    };
    lay_atoms(rows, notes, last, at.p, head, m, places);
    let p = at.p + 1 + m;
    notes[p] = p as u16;
    note_pass(depths, kind, at.n, places);
    Spot {
        node: at.node,
        n: at.n + 1 + m,
        p,
    }
}

// What the written names of a pass meant before.
#[derive(Clone, Copy)]
pub struct Meant {
    pub first: u16,
    pub second: u16,
}

// The written names of a pass mean the new names after n; a second name hides an equal first, and where there is one
// name it is both.
pub fn bind_pass(places: &mut [u16; 256], kind: u8, low: u8, high: u8, n: usize) -> Meant
    requires { n + loop_size (loop_of kind) < 256 }
    ensures places_after { places.new
        ≡ set (set places.old low (n + 1)) (second_name kind low high) (n + loop_size (loop_of kind)) }
    ensures first_value { (result.first ≡ get_or places.old low 0)
        × (result.second ≡ get_or (set places.old low (n + 1)) (second_name kind low high) 0) }
{
    let i = low as usize;
    let j = script_read::second_name(kind, low, high) as usize;
    let first = places[i];
    places[i] = (n + 1) as u16;
    let second = places[j];
    places[j] = (n + plain_rows::loop_size(kind)) as u16;
    Meant { first, second }
}

// The written names of a pass mean again what they meant before.
pub fn unbind_pass(places: &mut [u16; 256], kind: u8, low: u8, high: u8, old: Meant)
    ensures { places.new
        ≡ set (set places.old (second_name kind low high) old.second) low old.first }
{
    let i = low as usize;
    let j = script_read::second_name(kind, low, high) as usize;
    places[j] = old.second;
    places[i] = old.first;
}

// Notes at the first row of an if's first tree where the second begins, and there that it begins.
pub fn put_middle(notes: &mut plain_rows::Notes, first: usize, middle: usize)
    requires { (first < 2048) × (middle < 2048) }
    ensures { notes.new ≡ set (set notes.old first middle) middle middle }
{
    notes[first] = middle as u16;
    notes[middle] = middle as u16;
}

// Closes a line with trees, whose name is n and which begins at row p, after its last tree: the note after it, and the
// depth of its name.
pub fn close_line(
    notes: &mut plain_rows::Notes,
    depths: &mut [u8; 256],
    n: usize,
    p: usize,
    tree: Out,
    depth: u8,
) -> Out
    requires { (n < 256) × ((p < 2048) × (tree.after.p < 2048)) }
    ensures value { result ≡ record { place = n; after = tree.after } }
    ensures notes_after { notes.new ≡ set notes.old tree.after.p p }
    ensures depths_after { depths.new ≡ set depths.old n depth }
{
    notes[tree.after.p] = p as u16;
    depths[n] = depth;
    Out {
        place: n as u16,
        after: tree.after,
    }
}

// The depth of an atom.
pub fn depth_of(depths: &[u8; 256], place: u16) -> u8
    ensures { result ≡ place_depth depths.now place }
{
    if place < 256 {
        depths[place as usize]
    } else {
        0
    }
}

// The depth of an array's elements.
pub fn element_depth(depths: &[u8; 256], place: u16) -> u8
    ensures { result ≡ pred (place_depth depths.now place) }
{
    depth_of(depths, place).saturating_sub(1)
}

// The depth of the name that a leaf binds; the places of its atoms stand in a table.
pub fn depth_of_line(
    results: &[u8; 32],
    depths: &[u8; 256],
    kind: u8,
    y: u8,
    places: &[u16; 16],
) -> u8
    requires { (y < 32) × (kind ≡ 18 → place_depth depths.now (get_or places.now 1 0) ≤ 3) }
    ensures { result ≡ line_depth results.now depths.now kind y (get_or places.now 0 0)
        (get_or places.now 1 0) }
{
    match kind {
        kinds::CALL => results[y as usize],
        kinds::LITERAL => y + 1,
        kinds::INDEX => element_depth(depths, places[0]),
        kinds::IOTA => 1,
        kinds::REPLICATE => depth_of(depths, places[1]) + 1,
        _ => 0,
    }
}

// The depth of the name that a loop binds: first is the place of its first atom, given that of what its tree gives.
pub fn depth_of_loop(depths: &[u8; 256], kind: u8, first: u16, given: u16) -> u8
    requires { (kind ≡ 19 → ⊥) → (kind ≡ 20 → ⊥) → place_depth depths.now given ≤ 3 }
    ensures { result ≡ loop_place (loop_of kind) depths.now first given }
{
    match kind {
        kinds::FILTER | kinds::REDUCE => depth_of(depths, first),
        _ => depth_of(depths, given) + 1,
    }
}
