// A plain table: judged, and read by its rows and its labels.
#![tactic(auto)]

ghost use Rattle.std.specs.Prelude.{◌≡◌, ◌||◌, not, ◌+◌, ◌*◌, ◌≤◌, ◌<◌, leb, eqb, length, IfOk};
ghost use Rattle.paper.specs.Below.{any, differ, outside};
ghost use Rattle.paper.specs.Words.{byte_at};
ghost use Rattle.paper.specs.Labels.{labels_behind};
ghost use Rattle.paper.specs.Table as given;
ghost use Rattle.paper.specs.Table.{next, classes_bad_of, table_length};
ghost use Rattle.paper.specs.Operations.{judge_table_of};
ghost use Rattle.paper.specs.Promises.{JudgesTable};
ghost use Rattle.paper.proofs.Marks.{Seen};
ghost use Rattle.answers.specs.Numbers.{answer_of};
ghost use Rattle.labels.specs.Editions.{edition_in};
ghost use Rattle.table.specs.Counted.{Counted};

use answers::Refusal;
use labels::{Edition, Labels};

// A table that has the length that its front gives: its bytes, its edition, n states and k classes.
#[derive(Clone, Copy)]
pub struct Table<'a> {
    pub bytes: &'a [u8],
    pub edition: Edition,
    pub n: usize,
    pub k: usize,
    ghost counted: { Counted bytes.now n k },
    ghost of_edition: { edition_in edition ≡ given.edition bytes.now },
}

// A table that is accepted.
#[derive(Clone, Copy)]
pub struct Accepted<'a> {
    pub table: Table<'a>,
    ghost accepted: { judge_table_of table.bytes.now ≡ 0 },
}

impl<'a> Table<'a> {
    // The next state of state s on class c: the rows are the last 2nk bytes.
    pub fn next(&self, s: usize, c: usize) -> u16
        requires { (s < self.now.n) × (c < self.now.k) }
        ensures { result ≡ next self.now.bytes.now s c }
    {
        let t = self.bytes;
        words::get16(t, t.len() - 2 * (self.n * self.k) + 2 * (s * self.k + c))
    }

    // Ground 10: a next state is not below n. It is so where the largest is not.
    fn next_bad(&self) -> bool
        requires { 0 < self.now.n }
        ensures { result ≡ any self.now.n (λ s. any self.now.k (λ c. leb self.now.n (next self.now.bytes.now s c))) }
    {
        let t = self.bytes;
        let n = self.n;
        let cells = n * self.k;
        let rows = t.len() - 2 * cells;
        let mut most = 0;
        for j in 0..cells {
            most = words::get16(t, rows + 2 * j).max(most);
        }
        n <= most as usize
    }
}

// Ground 2: n or k is out of range.
pub fn counts_bad(n: usize, k: usize) -> bool
    ensures { result ≡ (outside 1 512 n || outside 1 256 k) }
{
    n < 1 || 512 < n || k < 1 || 256 < k
}

// Ground 3: the length is not the one that n, k and the labels give. An input that ends inside the counts of labels is shorter.
fn length_bad(labels: &Labels, k: usize) -> bool
    requires { (labels.now.at ≡ 262) × (labels.now.n ≤ 512) × (k ≤ 256) }
    ensures { result ≡ differ (length labels.now.bytes.now)
        (table_length labels.now.n k (labels_behind labels.now.bytes.now 262 labels.now.n (edition_in labels.now.edition))) }
{
    let n = labels.n;
    let length = labels.bytes.len();
    if length < 262 + 2 * n {
        return true;
    }
    let behind = labels.behind();
    length != 262 + 2 * n + 2 * behind + 2 * (n * k)
}

// Ground 7, first half: a byte's class, of the 256 that stand from `at` on, is not below k. It is so where the largest is not.
fn class_high(b: &[u8], at: usize, k: usize) -> bool
    requires { (at + 256 ≤ length b.now) × (0 < k) }
    ensures { result ≡ any 256 (λ x. leb k (byte_at b.now (at + x))) }
{
    let mut most = 0;
    for x in 0..256 {
        most = b[at + x].max(most);
    }
    k <= most as usize
}

// A mark for each class that a byte has, of the 256 that stand from `at` on.
fn classes_seen(b: &[u8], at: usize) -> [bool; 256]
    requires { at + 256 ≤ length b.now }
    ensures { Seen result (λ x. byte_at b.now (at + x)) 256 }
{
    let mut seen: [bool; 256] = [false; 256];
    for x in 0..256 {
        seen[b[at + x] as usize] = true;
    }
    seen
}

// Ground 7, second half: there is a class below k that no byte has.
fn class_missing(b: &[u8], at: usize, k: usize) -> bool
    requires { (at + 256 ≤ length b.now) × (k ≤ 256) }
    ensures { result ≡ any k (λ c. not (any 256 (λ x. eqb (byte_at b.now (at + x)) c))) }
{
    let seen = classes_seen(b, at);
    for c in 0..k {
        if !seen[c] {
            return true;
        }
    }
    false
}

// Ground 7: a byte's class, of the 256 that stand from `at` on, is not below k, or no byte has some class below k.
pub fn classes_bad(b: &[u8], at: usize, k: usize) -> bool
    requires { (at + 256 ≤ length b.now) × (k ≤ 256) × (0 < k) }
    ensures { result ≡ classes_bad_of k (λ x. byte_at b.now (at + x)) }
{
    class_high(b, at, k) || class_missing(b, at, k)
}

// Judges a table: itself, or the first ground, in the order 1, 2, 19, 3, 6, 7, 19, 10, that applies.
pub fn judged<'a>(bytes: &'a [u8]) -> Result<Accepted<'a>, Refusal>
    ensures number { answer_of result ≡ judge_table_of bytes.now }
    ensures same { IfOk result (λ t. t.table.bytes.now ≡ bytes.now) }
{
    if bytes.len() < 6 {
        return Err(Refusal::TooShort);
    }
    let word = words::get16(bytes, 0);
    let edition = Edition::of(word);
    let n = labels::states_of(word);
    let k = words::get16(bytes, 2) as usize;
    let start = words::get16(bytes, 4) as usize;
    if counts_bad(n, k) {
        return Err(Refusal::Counts);
    }
    let labels = Labels {
        bytes,
        at: 262,
        n,
        edition,
    };
    if labels.counts_bad() {
        return Err(Refusal::Labels);
    }
    if length_bad(&labels, k) {
        return Err(Refusal::Length);
    }
    let table = Table {
        bytes,
        edition,
        n,
        k,
    };
    if n <= start {
        return Err(Refusal::StartState);
    }
    if classes_bad(bytes, 6, k) {
        return Err(Refusal::Classes);
    }
    if labels.labels_bad() {
        return Err(Refusal::Labels);
    }
    if table.next_bad() {
        return Err(Refusal::NextStates);
    }
    Ok(Accepted { table })
}

// Judges a table: 0, or the number of the first ground that applies.
pub fn judge_table(t: &[u8]) -> u32
    ensures { JudgesTable t.now result }
{
    answers::number(judged(t))
}
