// Ground 8: the records of an image, one by one, and the sum of their counts.
ghost use Rattle.std.specs.Prelude.{◌≡◌, ◌||◌};
ghost use Rattle.paper.specs.Below.{any, sum, differ};
ghost use Rattle.paper.specs.View.{record_bad_of};
ghost use Rattle.paper.specs.Image.{states, classes, entries, count, image_view};
ghost use Rattle.contents.specs.Counted.{Counted, Records};
ghost use Rattle.contents.specs.Tests.{record_wrong};

// Ground 8 at one record: a default neither 65535 nor below n; a count above k; no default and a count other than k.
pub fn record_bad(read: image::Record, n: usize, k: usize) -> bool
    ensures { result ≡ record_wrong n k read }
{
    let count = read.count as usize;
    if k < count {
        return true;
    }
    match read.fallback {
        None => count != k,
        Some(d) => n <= d as usize,
    }
}

// Ground 8, first half: some record is wrong.
fn some_record_bad(b: &[u8], records: usize, n: usize, k: usize) -> bool
    requires { Records b.now n records × (k ≡ classes b.now) }
    ensures { result ≡ any (states b.now) (record_bad_of (image_view b.now)) }
{
    for s in 0..n {
        if record_bad(image::record_at(b, records + 4 * s), n, k) {
            return true;
        }
    }
    false
}

// The sum of the counts of all n records.
fn counts_sum(b: &[u8], records: usize, n: usize) -> usize
    requires { Records b.now n records }
    ensures { result ≡ sum (states b.now) (count b.now) }
{
    let mut total: usize = 0;
    for s in 0..n {
        total += words::get16(b, records + 4 * s + 2) as usize;
    }
    total
}

// Ground 8: some record is wrong, or the counts do not sum to m.
pub fn records_bad(b: &[u8], n: usize, k: usize, m: usize) -> bool
    requires { Counted b.now n m × (k ≡ classes b.now) }
    ensures { result ≡ (any (states b.now) (record_bad_of (image_view b.now)) || differ (sum (states b.now) (count b.now)) (entries b.now)) }
{
    let records = image::records_at(b, n, m);
    some_record_bad(b, records, n, k) || counts_sum(b, records, n) != m
}
