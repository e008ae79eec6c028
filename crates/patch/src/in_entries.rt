// Grounds 9 and 10: the entries of a patch, listed state by listed state.
ghost use Rattle.std.specs.Prelude.{◌≡◌, ◌+◌, ◌*◌, ◌/◌, leb, length};
ghost use Rattle.paper.specs.Below.{any};
ghost use Rattle.paper.specs.Words.{number16};
ghost use Rattle.paper.specs.Patch.{count, entries_part_of};
ghost use Rattle.contents.specs.Tests.{class_wrong};
ghost use Rattle.patch.specs.Shaped.{Counts, PatchBegins};

// Ground 10 in the entries of one state: some next state is not below n.
fn row_next_bad(row: &[u8], n: usize) -> bool
    ensures { result ≡ any (length row.now / 4) (λ j. leb n (number16 row.now (4 * j + 2))) }
{
    for j in 0..row.len() / 4 {
        if n <= words::get16(row, 4 * j + 2) as usize {
            return true;
        }
    }
    false
}

// Ground 9: some entry's class is not below k, or not above the one before in its state.
pub fn entry_classes_bad(x: &[u8], begins: &[u32; 65], p: usize, q: usize, k: usize) -> bool
    requires { Counts x.now p q × PatchBegins x.now p begins.now }
    ensures { result ≡ any p (λ i. any (count x.now i) (class_wrong k (entries_part_of x.now i))) }
{
    for i in 0..p {
        if contents::in_entries::row_bad(super::entries_of(x, begins, p, q, i), k) {
            return true;
        }
    }
    false
}

// Ground 10: some entry's next state is not below n.
pub fn next_bad(x: &[u8], begins: &[u32; 65], p: usize, q: usize, n: usize) -> bool
    requires { Counts x.now p q × PatchBegins x.now p begins.now }
    ensures { result ≡ any p (λ i. any (count x.now i) (λ j. leb n (number16 (entries_part_of x.now i) (4 * j + 2)))) }
{
    for i in 0..p {
        if row_next_bad(super::entries_of(x, begins, p, q, i), n) {
            return true;
        }
    }
    false
}
