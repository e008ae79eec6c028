// A list of defaults from anyone: whether it is right, and its values.
ghost use Rattle.std.specs.Prelude.{◌≡◌, ◌*◌, ◌≤◌, length};
ghost use Rattle.paper.specs.View.{default_bad_of};
ghost use Rattle.paper.specs.Image.{default_from_of};
ghost use Rattle.build.specs.Values.{list_bad_of, Values};

// A value in a list of defaults is neither 65535 nor below n.
fn default_bad(d: u16, n: usize) -> bool
    ensures { result ≡ default_bad_of n (default_from_of d) }
{
    d != 65535 && n <= d as usize
}

// 8: the list of defaults is not 2n bytes, or a value in it is neither 65535 nor below n.
pub fn list_bad(ds: &[u8], n: usize) -> bool
    requires { n ≤ 512 }
    ensures { result ≡ list_bad_of ds.now n }
{
    if ds.len() != 2 * n {
        return true;
    }
    for s in 0..n {
        if default_bad(words::get16(ds, 2 * s), n) {
            return true;
        }
    }
    false
}

// The values of a list of defaults.
pub fn values_of(ds: &[u8], n: usize) -> [u16; 512]
    requires { (n ≤ 512) × (length ds.now ≡ 2 * n) }
    ensures { Values ds.now n result }
{
    tally::of_states(n, |s| words::get16(ds, 2 * s))
}
