// The bounded forest by the weights of pairs, and the defaults that it gives.
#![tactic(auto)]

ghost use Rattle.std.specs.Prelude.{◌≡◌, ◌*◌, ◌≤◌, ◌<◌};
ghost use Rattle.weights.specs.Weighed.{weight_in};
ghost use Rattle.weights.specs.Named.{Named};
ghost use Rattle.joining.specs.Filled.{Replaced};
ghost use Rattle.joining.specs.Rooted.{Low};
ghost use Rattle.forest.specs.Single.{Own, Single};
ghost use Rattle.forest.specs.Beside.{NeighboursIn};
ghost use Rattle.forest.specs.Settled.{stays_root_of, root_in, Settles};
ghost use Rattle.forest.specs.Chosen.{FindsRoots};

use joining::Forest;

// The numbers 0 to 511.
fn own_numbers() -> [u16; 512]
    ensures { Own result 512 }
{
    std::array::from_fn(|x| x as u16)
}

// Single states: distance 0, each its own parent and its own tree.
fn single_states() -> Forest
    ensures { Single result.d result.parent result.tree }
{
    let own = own_numbers();
    Forest {
        d: [0u16; 512],
        parent: own,
        tree: own,
    }
}

// The number of neighbours of each state: one at each state that is not its own parent, and one at its parent.
fn neighbours_of(parent: &[u16; 512], n: usize) -> [u16; 512]
    requires { (n ≤ 512) × Low parent.now }
    ensures { NeighboursIn parent.now result n }
{
    let mut near = [0u16; 512];
    for x in 0..n {
        let p = parent[x] as usize;
        if p != x {
            near[x] += 1;
            near[p] += 1;
        }
    }
    near
}

// Whether y, if it is of z's tree, goes before z as a root: by smaller d, with equal d by more neighbours, with equally many by the smaller number.
fn stays_root(ty: u16, tz: u16, dy: u16, dz: u16, ny: u16, nz: u16, y: usize, z: usize) -> bool
    ensures { result ≡ stays_root_of ty tz dy dz ny nz y z }
{
    ty != tz || (dy, nz, y) <= (dz, ny, z)
}

// Whether y is its tree's root: the state with the smallest d, with equal d the most neighbours, with equally many the smallest number.
fn is_root(d: &[u16; 512], tree: &[u16; 512], near: &[u16; 512], n: usize, y: usize) -> bool
    requires { (n ≤ 512) × (y < n) }
    ensures { result ≡ root_in d.now tree.now near.now n y }
{
    for z in 0..n {
        if !stays_root(tree[y], tree[z], d[y], d[z], near[y], near[z], y, z) {
            return false;
        }
    }
    true
}

// The parents with each tree turned to its root; the neighbours are counted once, before.
fn settle(f: Forest, n: usize) -> [u16; 512]
    requires { n ≤ 512 }
    ensures { Settles n f.d f.parent f.tree result n }
{
    let near = neighbours_of(&f.parent, n);
    let mut parent = f.parent;
    for x in 0..n {
        if is_root(&f.d, &f.tree, &near, n, x) {
            let turned = joining::turned_to(parent, x, f.d[x]);
            parent = turned;
        }
    }
    parent
}

// The parents with 65535 for each state that is its own.
// As `renumber` of `joining`, save that a state's own number goes. One function for both would take it by a closure, and its contract would speak of the closure's calls.
fn pointers(parent: [u16; 512], n: usize) -> [u16; 512]
    requires { n ≤ 512 }
    ensures { Replaced (λ s. s) 65535 parent result n }
{
    let mut chosen = parent;
    for s in 0..n {
        if chosen[s] == s as u16 {
            chosen[s] = 65535;
        }
    }
    chosen
}

// The defaults toward the roots of the forest in one of the orders 0, 1 and 2 with this path bound, by the weights of a table of n states and k classes and which there are: for each state its default, or 65535 for none.
pub fn defaults_of(
    weights: &[u8; 262144],
    seen: &[u8; 256],
    n: usize,
    k: usize,
    order: u8,
    bound: u16,
) -> [u16; 512]
    requires { (n ≤ 512) × (0 < k) × (k ≤ 256) × Named (weight_in weights.now) n (n * 512) seen.now }
    ensures { FindsRoots n k order bound weights.now result }
{
    let f = greedy::take_all(
        single_states(),
        weights,
        seen,
        n,
        order,
        bound,
        (k - 1) as u8,
    );
    pointers(settle(f, n), n)
}
