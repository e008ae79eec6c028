// Ground 8: the records of a patch, one by one, and the sum of their counts.
ghost use Rattle.std.specs.Prelude.{◌≡◌, ◌||◌, ◌+◌, ◌*◌};
ghost use Rattle.paper.specs.Below.{any, sum, differ};
ghost use Rattle.paper.specs.Patch.{records_at_of, count};
ghost use Rattle.image.specs.Forms.{record_at_of};
ghost use Rattle.contents.specs.Tests.{record_wrong};
ghost use Rattle.patch.specs.Shaped.{Shaped};

// Ground 8, first half: some record is wrong.
fn some_record_bad(x: &[u8], p: usize, q: usize, n: usize, k: usize) -> bool
    requires { Shaped x.now p q }
    ensures { result ≡ any p (λ i. record_wrong n k (record_at_of x.now (records_at_of x.now + 4 * i))) }
{
    let records = super::records_at(x, p, q);
    for i in 0..p {
        if contents::in_records::record_bad(image::record_at(x, records + 4 * i), n, k) {
            return true;
        }
    }
    false
}

// The sum of the counts of all p records.
fn counts_sum(x: &[u8], p: usize, q: usize) -> usize
    requires { Shaped x.now p q }
    ensures { result ≡ sum p (count x.now) }
{
    let records = super::records_at(x, p, q);
    let mut total: usize = 0;
    for i in 0..p {
        total += words::get16(x, records + 4 * i + 2) as usize;
    }
    total
}

// Ground 8: some record is wrong, or the counts do not sum to q.
pub fn records_bad(x: &[u8], p: usize, q: usize, n: usize, k: usize) -> bool
    requires { Shaped x.now p q }
    ensures { result ≡ (any p (λ i. record_wrong n k (record_at_of x.now (records_at_of x.now + 4 * i))) || differ (sum p (count x.now)) q) }
{
    some_record_bad(x, p, q, n, k) || counts_sum(x, p, q) != q
}
