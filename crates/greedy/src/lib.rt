// The pairs of states taken by falling weight, each added or dropped for good.
#![tactic(auto)]

ghost use Rattle.std.specs.Prelude.{◌*◌, ◌≤◌, ◌<◌};
ghost use Rattle.paper.specs.Forest.{rest, falling};
ghost use Rattle.trees.proofs.Best.{level_of};
ghost use Rattle.pairs.specs.Tie.{order_number};
ghost use Rattle.weights.specs.Weighed.{weight_in};
ghost use Rattle.weights.specs.Named.{Named};
ghost use Rattle.greedy.specs.Good.{Becomes};

use joining::Forest;
use pairs::Tie;

// All pairs of weight w in order 0: by first state, then by second.
fn take_level(f0: Forest, weights: &[u8; 262144], n: usize, bound: u16, w: u8) -> Forest
    requires { n ≤ 512 }
    ensures { Becomes n bound (level_of n (rest 0 n) bound (weight_in weights.now) w) f0.d f0.parent f0.tree result.d result.parent result.tree }
{
    let mut f = f0;
    for u in 0..n {
        if f.d[u] < bound {
            let mut next = pairs::next_of(weights, n, u, u + 1, w);
            while let Some(v) = next {
                if pairs::takes(w, w, f.tree[u], f.tree[v], f.d[u], f.d[v], bound) {
                    f = joining::join(f, n, u, v);
                }
                next = pairs::next_of(weights, n, u, v + 1, w);
            }
        }
    }
    f
}

// All pairs of weight w in an order that goes by the distances of the moment: the best that can be added is joined, as long as there is one.
fn take_best(f0: Forest, weights: &[u8; 262144], n: usize, tie: Tie, bound: u16, w: u8) -> Forest
    requires { n ≤ 512 }
    ensures { Becomes n bound (level_of n (rest (order_number tie) n) bound (weight_in weights.now) w) f0.d f0.parent f0.tree result.d result.parent result.tree }
{
    let mut f = f0;
    let mut low = [0u32; 512];
    for joins in 0..n {
        let long = best::longest_paths(&f.d, &f.tree, n);
        let s = best::best_pair(low, &f.d, &f.tree, &long, weights, n, tie, bound, w);
        let Some(p) = s.best else {
            return f;
        };
        f = joining::join(f, n, p.u, p.v);
        low = best::relaxed(s.low, n, tie);
    }
    f
}

// All pairs of weight w in an order.
fn take_weight(f: Forest, weights: &[u8; 262144], n: usize, tie: Tie, bound: u16, w: u8) -> Forest
    requires { n ≤ 512 }
    ensures { Becomes n bound (level_of n (rest (order_number tie) n) bound (weight_in weights.now) w) f.d f.parent f.tree result.d result.parent result.tree }
{
    match tie {
        Tie::States => take_level(f, weights, n, bound, w),
        Tie::Path | Tie::Growth => take_best(f, weights, n, tie, bound, w),
    }
}

// All pairs by falling weight, from `top` down to 1; a weight that no pair has, by what was seen, is passed over.
fn take_tied(
    f0: Forest,
    weights: &[u8; 262144],
    seen: &[u8; 256],
    n: usize,
    tie: Tie,
    bound: u16,
    top: u8,
) -> Forest
    requires { (n ≤ 512) × Named (weight_in weights.now) n (n * 512) seen.now }
    ensures { Becomes n bound (falling n (rest (order_number tie) n) bound (weight_in weights.now) top) f0.d f0.parent f0.tree result.d result.parent result.tree }
{
    let mut f = f0;
    for at in (1..top as usize + 1).rev() {
        let w = seen[at];
        if w != 0 {
            f = take_weight(f, weights, n, tie, bound, w);
        }
    }
    f
}

// The same in the order with this number; every order from 2 on goes by growth.
pub fn take_all(
    f0: Forest,
    weights: &[u8; 262144],
    seen: &[u8; 256],
    n: usize,
    order: u8,
    bound: u16,
    top: u8,
) -> Forest
    requires { (n ≤ 512) × Named (weight_in weights.now) n (n * 512) seen.now }
    ensures { Becomes n bound (falling n (rest order n) bound (weight_in weights.now) top) f0.d f0.parent f0.tree result.d result.parent result.tree }
{
    let tie = Tie::of(order);
    take_tied(f0, weights, seen, n, tie, bound, top)
}
