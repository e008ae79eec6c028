// What the image of a table with defaults will hold: the entries that each state keeps.
#![tactic(auto)]

ghost use Rattle.std.specs.Prelude.{◌≡◌, ℕ, ◌≤◌, ◌<◌, get_or};
ghost use Rattle.paper.specs.Below.{any, sum};
ghost use Rattle.paper.specs.Words.{Bytes};
ghost use Rattle.paper.specs.Image.{default_from_of};
ghost use Rattle.chains.specs.Orders.{InRange};
ghost use Rattle.tally.specs.Kept.{kept, kept_count, Counts, shares_few_of};

use table::{Accepted, Table};

mod hops;

// An accepted table with the default of each state: a state below n, or 65535 for none.
// In such an array of fixed length an Option would take twice the bytes.
#[derive(Clone, Copy)]
pub struct Defaulted<'t, 'a> {
    pub table: Accepted<'t>,
    pub def: &'a [u16; 512],
    ghost readable: { Bytes table.table.bytes.now },
    ghost range: { InRange table.table.n def.now },
}

// For each of n states the number that a closure gives; 0 behind them.
pub fn of_states<F: Fn(usize) -> u16>(n: usize, f: F) -> [u16; 512]
    requires few { n ≤ 512 }
    requires can { (s : ℕ) → s < n → F.pre f s }
    ensures { (s : ℕ) → s < n → F.post f s (get_or result s 0) }
{
    let mut list = [0u16; 512];
    for s in 0..n {
        list[s] = f(s);
    }
    list
}

// Whether state s, whose default is d or which has none, keeps class c as an entry.
pub fn keeps(t: &Table, d: u16, s: usize, c: usize) -> bool
    requires { (s < t.now.n) × (c < t.now.k) × (¬ (d ≡ 65535) → d < t.now.n) }
    ensures { result ≡ kept t.now.bytes.now s c (default_from_of d) }
{
    if d == 65535 {
        return true;
    }
    t.next(s, c) != t.next(d as usize, c)
}

// How many classes a state keeps.
fn count_of(t: &Table, d: u16, s: usize) -> u16
    requires { (s < t.now.n) × (¬ (d ≡ 65535) → d < t.now.n) }
    ensures { result ≡ kept_count t.now.bytes.now t.now.k s d }
{
    let mut count: u16 = 0;
    for c in 0..t.k {
        if keeps(t, d, s, c) {
            count += 1;
        }
    }
    count
}

impl<'t, 'a> Defaulted<'t, 'a> {
    // How many classes each state keeps.
    pub fn counts(&self) -> [u16; 512]
        ensures { Counts self.now.table.table.bytes.now self.now.table.table.n self.now.def.now result }
    {
        let t = self.table.table;
        let def = self.def;
        of_states(t.n, |s| count_of(&t, def[s], s))
    }
}

// Whether a state that keeps so many of k classes and has the default d, or none, shares fewer than two with it: what it does not keep it shares.
pub fn shares_few(d: u16, count: u16, k: usize) -> bool
    ensures { result ≡ shares_few_of k count (default_from_of d) }
{
    d != 65535 && k < count as usize + 2
}

// 25: whether some state shares fewer than two classes with its default.
pub fn some_share_few(def: &[u16; 512], counts: &[u16; 512], n: usize, k: usize) -> bool
    requires { n ≤ 512 }
    ensures { result ≡ any n (λ s. shares_few_of k (get_or counts.now s 0) (default_from_of (get_or def.now s 0))) }
{
    for s in 0..n {
        if shares_few(def[s], counts[s], k) {
            return true;
        }
    }
    false
}

// All of the first n numbers together.
pub fn sum_of(list: &[u16; 512], n: usize) -> u32
    requires { n ≤ 512 }
    ensures { result ≡ sum n (λ s. get_or list.now s 0) }
{
    let mut all = 0;
    for x in &list[..n] {
        all += u32::from(*x);
    }
    all
}
