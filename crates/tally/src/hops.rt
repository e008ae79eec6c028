// The worst of a table with defaults, eight classes at a time: what a state shares with its default costs it one hop more than its default.
ghost use Rattle.std.specs.Prelude.{◌≡◌, ℕ, ◌+◌, ◌*◌, ◌≤◌, ◌<◌, max, length, get_or};
ghost use Rattle.paper.specs.Table.{class_of};
ghost use Rattle.paper.specs.View.{worst_hops};
ghost use Rattle.words.proofs.Put.{Put};
ghost use Rattle.chains.specs.Orders.{ParentFirst};
ghost use Rattle.tally.specs.Owned.{list_view};
ghost use Rattle.tally.specs.Hops.{Eight, hop_number, row_number, EightMost};

use super::Defaulted;
use table::Table;

// The eight classes from c on, the last again where there are fewer.
fn eight_from(c: usize, k: usize) -> [u16; 8]
    requires { (c < k) × (k ≤ 256) }
    ensures { Eight k c result }
{
    std::array::from_fn(|j| (c + j).min(k - 1) as u16)
}

// The hops of state s for a class, where its default d takes h: none where its next state is another, else one more.
fn hops_on(t: &Table, d: usize, s: usize, c: usize, h: u16) -> u16
    requires { (s < t.now.n) × (d < t.now.n) × (c < t.now.k) × (h < 512) }
    ensures { result ≡ hop_number t.now.bytes.now s d c h }
{
    if t.next(s, c) != t.next(d, c) {
        return 0;
    }
    h + 1
}

// The hops of state s for eight classes, where those of its default are known; without a default it takes none.
fn row_hops(t: &Table, d: u16, s: usize, classes: &[u16; 8], hop: &[u16; 4096]) -> [u16; 8]
    requires { (s < t.now.n) × (¬ (d ≡ 65535) → d < t.now.n) × ((j : ℕ) → j < 8 → get_or classes.now j 0 < t.now.k)
        × (¬ (d ≡ 65535) → (j : ℕ) → j < 8 → get_or hop.now (8 * d + j) 0 < 512) }
    ensures { (j : ℕ) → j < 8 → get_or result j 0 ≡ row_number t.now.bytes.now s d classes.now hop.now j }
{
    let mut row = [0u16; 8];
    if d == 65535 {
        return row;
    }
    let d = d as usize;
    for j in 0..8 {
        row[j] = hops_on(t, d, s, classes[j] as usize, hop[8 * d + j]);
    }
    row
}

// Sets them down. All eight are known before one is written.
fn put_hops(t: &Table, d: u16, s: usize, classes: &[u16; 8], hop: &mut [u16; 4096])
    requires { (s < t.now.n) × (¬ (d ≡ 65535) → d < t.now.n) × ((j : ℕ) → j < 8 → get_or classes.now j 0 < t.now.k)
        × (¬ (d ≡ 65535) → (j : ℕ) → j < 8 → get_or hop.old (8 * d + j) 0 < 512) × (length hop.old ≡ 4096) }
    ensures { Put hop.old hop.new (8 * s) (row_number t.now.bytes.now s d classes.now hop.old) 8 }
{
    let row = row_hops(t, d, s, classes, hop);
    // By `copy_from_slice` the compiler would look at each eight whether they overlap.
    for j in 0..8 {
        hop[8 * s + j] = row[j];
    }
}

impl<'t, 'a> Defaulted<'t, 'a> {
    // The most hops that a state takes for the eight classes from c on, and at least `least`.
    fn most_hops(&self, order: &[u16; 512], c: usize, least: u16) -> u16
        requires { ParentFirst self.now.table.table.n self.now.def.now order.now × (c < self.now.table.table.k) }
        ensures { (found : ℕ) × (result ≡ max least found)
            × EightMost (list_view self.now.table.table.bytes.now self.now.def.now) self.now.table.table.n self.now.table.table.k c found }
    {
        let t = self.table.table;
        let classes = eight_from(c, t.k);
        let mut hop = [0u16; 4096];
        for s in &order[..t.n] {
            let state = *s as usize;
            put_hops(&t, self.def[state], state, &classes, &mut hop);
        }
        words::most(&hop[..8 * t.n], least)
    }

    // The worst, by an order in which each state comes after its default: the most hops that a state takes for a class. Each state of each class is looked at once, so this takes steps in proportion to n k.
    pub fn worst(&self, order: &[u16; 512]) -> u16
        requires { ParentFirst self.now.table.table.n self.now.def.now order.now }
        ensures { result ≡ worst_hops (list_view self.now.table.table.bytes.now self.now.def.now) (class_of self.now.table.table.bytes.now) }
    {
        let mut worst = 0;
        for eight in 0..(self.table.table.k + 7) / 8 {
            worst = self.most_hops(order, 8 * eight, worst);
        }
        worst
    }
}
