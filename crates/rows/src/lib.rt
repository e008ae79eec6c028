// The names of the states of a word list, and failure links and rows of next states, by class, filled by rising length of the names.
#![tactic(auto)]

ghost use Rattle.std.specs.Prelude.{◌≡◌, cond, List, [], ◌∷◌, ◌++◌, ℕ, ◌+◌, ◌*◌, ◌≤◌, ◌<◌, eqb, length, get_or, set, MatchOption};
ghost use Rattle.paper.specs.Strings.{Rule};
ghost use Rattle.paper.proofs.Filled as holds;
ghost use Rattle.strings.proofs.Needed.{added};
ghost use Rattle.strings.proofs.RowsFilled.{RowFilled, Filled};
ghost use Rattle.strings.proofs.Grow.{Grown, Stepped};
ghost use Rattle.strings.proofs.LevelTurn.{link_read_of, Prepared};
ghost use Rattle.strings.proofs.Spread.{Alone, spread};

use classing::Classes;

// The next states of 512 states, 256 for each.
// An array of arrays is no plainer here: the laws speak of one list.
pub type Rows = [u16; 131072];

// The names of the first `count` states: of each its parent, its last byte, its length, and the place in the list from which its bytes stand.
// One array of structs is no plainer here: the laws speak of four lists, and a level looks at the lengths alone.
#[derive(Drop)]
pub struct Names {
    pub parent: [u16; 512],
    pub last: [u8; 512],
    pub long: [u16; 512],
    pub from: [u16; 512],
    pub count: usize,
    ghost few: { count ≤ 512 },
    ghost room: { length from ≡ 512 },
}

impl Names {
    // Room for names, and none yet.
    pub fn none() -> Names
        ensures { (result.count ≡ 0) × (get_or result.long 0 0 ≡ 0) × (get_or result.from 0 0 ≡ 0) }
    {
        Names {
            parent: [0; 512],
            last: [0; 512],
            long: [0; 512],
            from: [0; 512],
            count: 0,
        }
    }

    // From state p on byte a to its child, a new state where there is none; none where there is no room for one more.
    pub fn step_in(&mut self, rows: &mut Rows, classes: &Classes, p: usize, a: u8) -> Option<usize>
        requires { Alone classes.now.of a × (p < self.old.count) × (get_or self.old.long p 0 < 32) }
        ensures stepped { (ws : List (List ℕ)) → length ws ≡ self.old.count
            → Grown ws (spread classes.now.of rows.old) self.old.parent self.old.last self.old.long
            → MatchOption result (512 < length (added ws (get_or ws p [] ++ (a ∷ []))))
            (λ s. Stepped ws p a s self.new.count (spread classes.now.of rows.new) self.new.parent self.new.last self.new.long) }
        ensures places { self.new.from ≡ self.old.from }
    {
        let b = classes.of[a as usize] as usize;
        let d = rows[p * 256 + b];
        if d != 0 {
            return Some(d as usize);
        }
        let n = self.count;
        if n == 512 {
            return None;
        }
        rows[p * 256 + b] = n as u16;
        self.parent[n] = p as u16;
        self.last[n] = a;
        self.long[n] = self.long[p] + 1;
        self.count = n + 1;
        Some(n)
    }
}

// The first k places of a row by themselves, so that no write into the rows can change them.
// Tried and slower: to read them where they stand (strings took up to 1.4 times the instructions).
fn copy_row(rows: &Rows, l: usize, k: usize, linked: &mut [u16; 256])
    requires { (l < 512) × (k ≤ 256) }
    ensures { holds.Filled (λ c. get_or rows.now (l * 256 + c) 0) linked.new k }
{
    // By `copy_from_slice` it would call memmove, which the part's library need not have.
    let row = l * 256;
    for c in 0..k {
        linked[c] = rows[row + c];
    }
}

// The next state where a child stands, else the other.
fn kept(own: u16, other: u16) -> u16
    ensures { result ≡ cond (eqb own 0) other own }
{
    if own == 0 { other } else { own }
}

// One row of k classes, from the row of its failure link: where no child stands, what stands there.
fn fill_row(rows: &mut Rows, s: usize, l: usize, k: usize, linked: &mut [u16; 256])
    requires { (s < 512) × (l < 512) × (¬ (l ≡ s)) × (k ≤ 256) }
    ensures { RowFilled rows.old rows.new s l k }
{
    copy_row(rows, l, k, linked);
    for c in 0..k {
        rows[s * 256 + c] = kept(rows[s * 256 + c], linked[c]);
    }
}

// The failure link of a state with parent p and a last byte of class a.
fn link_of(rows: &Rows, links: &[u16; 512], p: usize, a: usize) -> u16
    requires { (p < 512) × (a < 256) × (get_or links.now p 0 < 512) }
    ensures { result ≡ link_read_of rows.now links.now p a }
{
    if p == 0 {
        return 0;
    }
    let l = links[p] as usize;
    rows[l * 256 + a]
}

// The link and the row of a state with parent p and a last byte of class a.
fn fill_state(
    rows: &mut Rows,
    links: &mut [u16; 512],
    p: usize,
    a: usize,
    s: usize,
    k: usize,
    linked: &mut [u16; 256],
)
    requires { (s < 512) × (p < 512) × (a < 256) × (get_or links.old p 0 < 512)
        × (link_read_of rows.old links.old p a < 512) × (¬ (link_read_of rows.old links.old p a ≡ s)) × (k ≤ 256) }
    ensures { RowFilled rows.old rows.new s (link_read_of rows.old links.old p a) k × (links.new ≡ set links.old s (link_read_of rows.old links.old p a)) }
{
    let l = link_of(rows, links, p, a);
    links[s] = l;
    fill_row(rows, s, l as usize, k, linked);
}

// Links and rows of the states whose names are `level` long.
pub fn fill_level(
    rows: &mut Rows,
    links: &mut [u16; 512],
    names: &Names,
    classes: &Classes,
    level: u16,
    linked: &mut [u16; 256],
)
    requires { (0 < level)
        × ((rs : List Rule) × Prepared rs names.now.parent names.now.last names.now.long names.now.count × Filled rs (spread classes.now.of rows.old) links.old level 0) }
    ensures { (rs : List Rule) → Prepared rs names.now.parent names.now.last names.now.long names.now.count
        → Filled rs (spread classes.now.of rows.old) links.old level 0
        → Filled rs (spread classes.now.of rows.new) links.new (level + 1) 0 }
{
    for s in 0..names.count {
        if names.long[s] == level {
            let p = names.parent[s] as usize;
            let a = classes.of[names.last[s] as usize] as usize;
            fill_state(rows, links, p, a, s, classes.count, linked);
        }
    }
}

// Links and rows of all states, length by length: no name is longer than 32.
pub fn fill_all(rows: &mut Rows, links: &mut [u16; 512], names: &Names, classes: &Classes)
    requires { (rs : List Rule) × Prepared rs names.now.parent names.now.last names.now.long names.now.count
        × Filled rs (spread classes.now.of rows.old) links.old 1 0 }
    ensures { (rs : List Rule) → Prepared rs names.now.parent names.now.last names.now.long names.now.count
        → Filled rs (spread classes.now.of rows.old) links.old 1 0
        → Filled rs (spread classes.now.of rows.new) links.new 33 0 }
{
    let mut linked = [0u16; 256];
    for level in 1..33u16 {
        fill_level(rows, links, names, classes, level, &mut linked);
    }
}
