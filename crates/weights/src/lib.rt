// The weights of all pairs of states of a table, by which the orders 0 to 2 choose defaults, and the classes that a pair shares.
#![tactic(auto)]

ghost use Rattle.std.specs.Prelude.{◌≡◌, ℕ, ◌+◌, ◌*◌, ◌≤◌, ◌<◌, eqb, get_or};
ghost use Rattle.paper.specs.Below.{bit};
ghost use Rattle.paper.specs.Table.{shared};
ghost use Rattle.weights.specs.Weighed.{weight_in, Weighed};
ghost use Rattle.weights.specs.Named.{Named};
ghost use Rattle.weights.specs.Laid.{Laid, Lays};
ghost use Rattle.weights.specs.Next.{First};

use table::Table;

// One more where two next states are equal.
fn counted(same: u16, x: u16, y: u16) -> u16
    requires { same < 65535 }
    ensures { result ≡ same + bit (eqb x y) }
{
    same + (x == y) as u16
}

// The numbers of classes for which the rows of a state and of each of N that stand one after the other have equal next states; its own row is read once for all of them.
fn shared_with<const N: usize>(t: &Table, u: usize, v: usize) -> [u16; N]
    requires { (u < t.now.n) × (v + N ≤ t.now.n) }
    ensures { (j : ℕ) → j < N → get_or result j 0 ≡ shared t.now.bytes.now u (v + j) }
{
    let mut same = [0u16; N];
    for c in 0..t.k {
        let x = t.next(u, c);
        for j in 0..N {
            same[j] = counted(same[j], x, t.next(v + j, c));
        }
    }
    same
}

// The number of classes for which the rows of two states have equal next states.
pub fn shared_of(t: &Table, u: usize, v: usize) -> u16
    requires { (u < t.now.n) × (v < t.now.n) }
    ensures { result ≡ shared t.now.bytes.now u v }
{
    shared_with::<1>(t, u, v)[0]
}

// The weight of the pair of u and v, one less than the classes that they share, is set down at the pair's place and at its own place among those seen.
fn set_down(weights: &mut [u8; 262144], seen: &mut [u8; 256], u: usize, v: usize, same: u16)
    requires { (u < 512) × (v < 512) × (same ≤ 256) }
    ensures { Lays weights.old seen.old u v same weights.new seen.new }
{
    let w = same.saturating_sub(1) as u8;
    weights[u * 512 + v] = w;
    seen[w as usize] = w;
}

// The weights of the pairs of u and each of N states that stand one after the other are set down.
fn set_down_all<const N: usize>(
    t: &Table,
    u: usize,
    v: usize,
    weights: &mut [u8; 262144],
    seen: &mut [u8; 256],
)
    requires { (u < t.now.n) × (v + N ≤ t.now.n) }
    ensures { Laid t.now.bytes.now t.now.n weights.old seen.old (u * 512 + v) → Laid t.now.bytes.now t.now.n weights.new seen.new (u * 512 + (v + N)) }
{
    let same = shared_with::<N>(t, u, v);
    for j in 0..N {
        set_down(weights, seen, u, v + j, same[j]);
    }
}

// The weights of all pairs, the first state below the second. Answers which weights there are: each stands at its own place, and 0 or its own number at every other.
pub fn weigh_all(t: &Table, weights: &mut [u8; 262144]) -> [u8; 256]
    ensures { Weighed t.now.bytes.now t.now.n weights.new (t.now.n * 512) × Named (weight_in weights.new) t.now.n (t.now.n * 512) result }
{
    let mut seen = [0u8; 256];
    for u in 0..t.n {
        let first = u + 1;
        let fours = (t.n - first) / 4;
        for i in 0..fours {
            set_down_all::<4>(t, u, first + 4 * i, weights, &mut seen);
        }
        for v in first + 4 * fours..t.n {
            set_down_all::<1>(t, u, v, weights, &mut seen);
        }
    }
    seen
}

// The first number from `from` on, below n, for which a test holds. With `find` over the range in its place order 0 takes up to 1.15 times the instructions.
pub fn first_of<F: Fn(usize) -> bool + Drop>(from: usize, n: usize, holds: F) -> Option<usize>
    requires { (v : ℕ) → from ≤ v → v < n → F.pre holds v }
    ensures { First F.post holds from n result }
{
    for v in from..n {
        if holds(v) {
            return Some(v);
        }
    }
    None
}
