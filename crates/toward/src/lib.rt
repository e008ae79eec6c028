// The defaults of order 3: the level of each state, and for each the state of lower level that shares the most next states with it. Only pairs of two levels are compared.
#![tactic(auto)]

ghost use Rattle.std.specs.Prelude.{◌≡◌, ◌+◌, ◌≤◌, ◌<◌};
ghost use Rattle.paper.specs.FallBack.{leads_to, toward_start};
ghost use Rattle.weights.specs.Next.{Next};
ghost use Rattle.weights.specs.Chosen.{Stands, Chosen};
ghost use Rattle.toward.specs.Marked.{level_in, Marked, finds, has, LevelsIn};

use table::{Accepted, Table};

// Levels stand as numbers, 65535 for none: an Option in its place would double the array.

// Each next state of s that has no level yet is marked.
fn mark_row(t: &Accepted, s: usize, levels: &mut [u16; 512], mark: u16)
    requires { s < t.now.table.n }
    ensures { Marked levels.old levels.new (leads_to t.now.table.bytes.now s) mark }
{
    for c in 0..t.table.k {
        let x = t.table.next(s, c) as usize;
        if levels[x] == 65535 {
            levels[x] = mark;
        }
    }
}

// The first state from `from` on that has this level.
fn next_at(levels: &[u16; 512], n: usize, from: usize, level: u16) -> Option<usize>
    requires { n ≤ 512 }
    ensures { Next n (level_in levels.now) from level result }
{
    weights::first_of(from, n, |s| levels[s] == level)
}

// One round: each next state of a state of this level that has no level yet is of the next one. Whether any state has this level.
fn mark_round(t: &Accepted, levels: &mut [u16; 512], level: u16) -> bool
    requires { level < 512 }
    ensures { Marked levels.old levels.new (finds t.now.table.bytes.now levels.old level t.now.table.n) (level + 1) × (result ≡ has levels.old level t.now.table.n) }
{
    let n = t.table.n;
    let first = next_at(levels, n, 0, level);
    let mut next = first;
    while let Some(s) = next {
        mark_row(t, s, levels, level + 1);
        next = next_at(levels, n, s + 1, level);
    }
    first.is_some()
}

// The level of each state of an accepted table, 65535 for none: round by round, until no state has the level of a round.
pub fn levels_of(t: &Accepted) -> [u16; 512]
    ensures { LevelsIn t.now.table.bytes.now t.now.table.n result }
{
    let mut levels = [65535u16; 512];
    let start = words::get16(t.table.bytes, 4) as usize;
    levels[start] = 0;
    for i in 0..t.table.n {
        if !mark_round(t, &mut levels, i as u16) {
            return levels;
        }
    }
    levels
}

// The default of x, as the array of defaults holds it: of the states of lower level the first that shares the most classes with it, if those are at least two; 65535 for none.
fn fall_of(t: &Table, levels: &[u16; 512], x: usize) -> u16
    requires { (x < t.now.n) × LevelsIn t.now.bytes.now t.now.n levels.now }
    ensures { Stands t.now.n (toward_start t.now.bytes.now x) result }
{
    let level = levels[x];
    if level == 65535 {
        return 65535;
    }
    let mut best: u16 = 1;
    let mut at: u16 = 65535;
    for y in 0..t.n {
        if levels[y] < level {
            let share = weights::shared_of(t, x, y);
            if best < share {
                best = share;
                at = y as u16;
            }
        }
    }
    at
}

// The defaults of an accepted table toward the start: for each state its default, or 65535 for none.
pub fn defaults_of(t: &Accepted) -> [u16; 512]
    ensures { Chosen t.now.table.n (toward_start t.now.table.bytes.now) result }
{
    let levels = levels_of(t);
    let mut chosen = [65535u16; 512];
    for x in 0..t.table.n {
        chosen[x] = fall_of(&t.table, &levels, x);
    }
    chosen
}
