// Grounds 9 and 10: the entries of an image, state by state and all of them.
ghost use Rattle.std.specs.Prelude.{◌≡◌, ◌+◌, ◌*◌, ◌/◌, ◌<◌, leb, length};
ghost use Rattle.paper.specs.Below.{any};
ghost use Rattle.paper.specs.View.{entry_class_bad, any_entry};
ghost use Rattle.paper.specs.Image.{states, classes, entries, image_view};
ghost use Rattle.image.specs.Laid.{Laid, Begins};
ghost use Rattle.contents.specs.Tests.{class_wrong};

// Ground 9 at one entry of a row: its class is not below k, or not above the one before.
fn class_bad(row: &[u8], k: usize, j: usize) -> bool
    requires { 4 * j + 3 < length row.now }
    ensures { result ≡ class_wrong k row.now j }
{
    let class = words::get16(row, 4 * j);
    if k <= class as usize {
        return true;
    }
    if j == 0 {
        return false;
    }
    class <= words::get16(row, 4 * (j - 1))
}

// Ground 9 in the entries of one state.
pub fn row_bad(row: &[u8], k: usize) -> bool
    ensures { result ≡ any (length row.now / 4) (class_wrong k row.now) }
{
    for j in 0..row.len() / 4 {
        if class_bad(row, k, j) {
            return true;
        }
    }
    false
}

// Ground 9: some entry's class is not below k, or not above the one before in its state.
pub fn entry_classes_bad(b: &[u8], begins: &[u32; 513], n: usize, k: usize) -> bool
    requires { Laid b.now × Begins b.now begins.now × (n ≡ states b.now) × (k ≡ classes b.now) }
    ensures { result ≡ any_entry (image_view b.now) (entry_class_bad (image_view b.now)) }
{
    for s in 0..n {
        if row_bad(image::entries_of(b, begins, s), k) {
            return true;
        }
    }
    false
}

// Ground 10: some entry's next state is not below n. It is so where the largest is not.
pub fn next_bad(b: &[u8], n: usize, m: usize) -> bool
    requires { Laid b.now × (n ≡ states b.now) × (m ≡ entries b.now) × (0 < n) }
    ensures { result ≡ any_entry (image_view b.now) (λ s j. leb (states b.now) ((image_view b.now).entry_next s j)) }
{
    let from = b.len() - (4 * m + 12);
    let mut most = 0;
    for j in 0..m {
        most = words::get16(b, from + 4 * j + 2).max(most);
    }
    n <= most as usize
}
