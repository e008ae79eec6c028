// The best pair of one weight that can be added, in an order that goes by the distances of the moment.
#![tactic(auto)]

ghost use Rattle.std.specs.Prelude.{◌≡◌, ◌≤◌, ◌<◌};
ghost use Rattle.pairs.specs.Keys.{key_in, fits_in};
ghost use Rattle.pairs.specs.Tie.{order_number};
ghost use Rattle.best.specs.Longs.{ByTree, LongestIn};
ghost use Rattle.best.specs.Picked.{found_of, InRow, Picked};
ghost use Rattle.best.specs.Searched.{Searched, Relaxed};

use pairs::Tie;

// A pair and its key.
#[derive(Clone, Copy)]
pub struct Pick {
    pub key: u32,
    pub u: usize,
    pub v: usize,
}

// What a search of all rows finds: the best pair, and for each row a floor, a number that no key of its pairs is below.
#[derive(Drop)]
pub struct Search {
    pub best: Option<Pick>,
    // A row that holds no pair has the floor 65536, above every key: an Option in its place would double the array.
    pub low: [u32; 512],
}

// The longest path of each tree, by the tree's number: the largest distance in it.
fn longest_by_tree(d: &[u16; 512], tree: &[u16; 512], n: usize) -> [u16; 512]
    requires { n ≤ 512 }
    ensures { ByTree d.now tree.now n result }
{
    let mut most = [0u16; 512];
    for x in 0..n {
        let t = tree[x];
        if t < 512 {
            let at = t as usize;
            most[at] = d[x].max(most[at]);
        }
    }
    most
}

// The longest path of each state's tree.
pub fn longest_paths(d: &[u16; 512], tree: &[u16; 512], n: usize) -> [u16; 512]
    requires { n ≤ 512 }
    ensures { LongestIn n d.now tree.now result }
{
    let most = longest_by_tree(d, tree, n);
    let mut long = [0u16; 512];
    for x in 0..n {
        let t = tree[x];
        if t < 512 {
            long[x] = most[t as usize];
        }
    }
    long
}

// The best pair of weight w in row u that can be added; the key 65536 says that there is none. A row whose own distance has reached the bound has none, and pairs of another weight are passed over.
// An Option of the pair takes up to 1.5 times the instructions here, and a `for` over all pairs of the row up to 1.3 times.
fn best_in_row(
    d: &[u16; 512],
    tree: &[u16; 512],
    long: &[u16; 512],
    weights: &[u8; 262144],
    n: usize,
    tie: Tie,
    bound: u16,
    w: u8,
    u: usize,
) -> Pick
    requires { (n ≤ 512) × (u < n) }
    ensures { (result.key ≤ 65536) × Picked n (fits_in weights.now w d.now tree.now bound) (key_in (order_number tie) d.now long.now) (InRow u n) (found_of result) }
{
    let mut best = Pick {
        key: 65536,
        u: 0,
        v: 0,
    };
    let tu = tree[u];
    let du = d[u];
    if bound <= du {
        return best;
    }
    let lu = long[u];
    let mut v = u + 1;
    while v < n {
        if weights[u * 512 + v] == w {
            let dv = d[v];
            if pairs::takes(w, w, tu, tree[v], du, dv, bound) {
                let key = pairs::key_of(tie, du, dv, lu, long[v]);
                if key < best.key {
                    best = Pick { key, u, v };
                }
            }
            v += 1;
        } else {
            let Some(next) = pairs::next_of(weights, n, u, v + 1, w) else {
                return best;
            };
            v = next;
        }
    }
    best
}

// The best pair of weight w that can be added. A row whose floor is not below the best key so far holds no better pair and is skipped; of each row looked at the floor is renewed.
pub fn best_pair(
    floors: [u32; 512],
    d: &[u16; 512],
    tree: &[u16; 512],
    long: &[u16; 512],
    weights: &[u8; 262144],
    n: usize,
    tie: Tie,
    bound: u16,
    w: u8,
) -> Search
    requires { n ≤ 512 }
    ensures { Searched n (fits_in weights.now w d.now tree.now bound) (key_in (order_number tie) d.now long.now) n floors result.low result.best }
{
    let mut low = floors;
    let mut best = Pick {
        key: 65536,
        u: 0,
        v: 0,
    };
    for u in 0..n {
        if low[u] < best.key {
            let row = best_in_row(d, tree, long, weights, n, tie, bound, w, u);
            low[u] = row.key;
            if row.key < best.key {
                best = row;
            }
        }
    }
    Search {
        best: (best.key < 65536).then_some(best),
        low,
    }
}

// The floors after a join. In orders 0 and 1 no key falls, so they stand; in order 2 a key may fall, so they are 0, save of a row that holds no pair that can be added: it never will.
pub fn relaxed(floors: [u32; 512], n: usize, tie: Tie) -> [u32; 512]
    requires { n ≤ 512 }
    ensures { Relaxed (order_number tie) n floors result }
{
    if tie != Tie::Growth {
        return floors;
    }
    let mut low = floors;
    for x in 0..n {
        if low[x] < 65536 {
            low[x] = 0;
        }
    }
    low
}
