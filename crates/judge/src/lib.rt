// Judges an image: 0, or the number of the first ground on which it is refused.
#![tactic(auto)]

ghost use Rattle.std.specs.Prelude.{◌≡◌, ◌||◌, ◌+◌, ◌-◌, ◌*◌, ◌%◌, ◌≤◌, ◌<◌, ◌^◌, length, take, IfOk};
ghost use Rattle.paper.specs.Below.{differ, outside};
ghost use Rattle.paper.specs.Words.{words, check_word_of};
ghost use Rattle.paper.specs.Refusals.{first};
ghost use Rattle.paper.specs.Labels.{labels_behind};
ghost use Rattle.paper.specs.Image.{distance_back, whole_length, check, image_length_of};
ghost use Rattle.paper.specs.Operations.{judge_image_of};
ghost use Rattle.paper.specs.Promises.{JudgesImage};
ghost use Rattle.answers.specs.Numbers.{answer_of};
ghost use Rattle.labels.specs.Editions.{edition_in};
ghost use Rattle.image.specs.Grounds.{first_grounds_of};

use answers::Refusal;
use image::Image;
use labels::{Edition, Labels};

// Ground 2: n, k or m is out of range. All three are compared before anything is made of m.
fn counts_bad(n: usize, k: usize, m: usize) -> bool
    ensures { result ≡ (outside 1 512 n || (outside 1 256 k || outside k (n * k) m)) }
{
    table::counts_bad(n, k) || m < k || n * k < m
}

// Ground 3: the length is not the one that n, m and the labels give. An input that ends inside the counts of labels is shorter.
fn length_bad(labels: &Labels, m: usize) -> bool
    requires { (labels.now.at ≡ 268) × (labels.now.n ≤ 512) × (m ≤ 131072) }
    ensures { result ≡ differ (length labels.now.bytes.now)
        (image_length_of labels.now.n m (labels_behind labels.now.bytes.now 268 labels.now.n (edition_in labels.now.edition))) }
{
    let n = labels.n;
    let length = labels.bytes.len();
    if length < 268 + 2 * n {
        return true;
    }
    let behind = labels.behind();
    length != 280 + 6 * n + 2 * behind + 4 * m
}

// Ground 4: the trailer's whole length or distance back is wrong.
pub fn trailer_bad(b: &[u8], m: usize) -> bool
    requires { (12 ≤ length b.now) × (m < 2 ^ 32) }
    ensures { result ≡ (differ (whole_length b.now) (length b.now) || differ (distance_back b.now) (4 * m + 12)) }
{
    words::get32(b, b.len() - 8) as usize != b.len()
        || words::get32(b, b.len() - 12) as usize != 4 * m + 12
}

// Ground 5: the check word differs from that of all words before it.
pub fn check_bad(b: &[u8]) -> bool
    requires { (2 ≤ length b.now) × (length b.now % 2 ≡ 0) × (length b.now < 2 ^ 32) }
    ensures { result ≡ differ (check b.now) (check_word_of (words (take (length b.now - 2) b.now))) }
{
    let end = b.len() - 2;
    words::get16(b, end) != words::check_word(&b[0..end])
}

// Judges an image on its first grounds: the first of the grounds 1 to 10 and 19 that applies.
pub fn first_grounds(b: &[u8]) -> Result<(), Refusal>
    ensures { answer_of result ≡ first (first_grounds_of b.now) }
{
    if b.len() < 24 {
        return Err(Refusal::TooShort);
    }
    let word = words::get16(b, 0);
    let edition = Edition::of(word);
    let n = labels::states_of(word);
    let k = words::get16(b, 2) as usize;
    let start = words::get16(b, 4) as usize;
    let m = words::get32(b, 8) as usize;
    if counts_bad(n, k, m) {
        return Err(Refusal::Counts);
    }
    let labels = Labels {
        bytes: b,
        at: 268,
        n,
        edition,
    };
    if labels.counts_bad() {
        return Err(Refusal::Labels);
    }
    if length_bad(&labels, m) {
        return Err(Refusal::Length);
    }
    if trailer_bad(b, m) {
        return Err(Refusal::Trailer);
    }
    if check_bad(b) {
        return Err(Refusal::CheckWord);
    }
    if n <= start {
        return Err(Refusal::StartState);
    }
    if table::classes_bad(b, 12, k) {
        return Err(Refusal::Classes);
    }
    if labels.labels_bad() {
        return Err(Refusal::Labels);
    }
    if contents::in_records::records_bad(b, n, k, m) {
        return Err(Refusal::Defaults);
    }
    let begins = image::begins_of(b, n, m);
    if contents::in_entries::entry_classes_bad(b, &begins, n, k) {
        return Err(Refusal::EntryClasses);
    }
    if contents::in_entries::next_bad(b, n, m) {
        return Err(Refusal::NextStates);
    }
    Ok(())
}

// Judges an image: itself, or the first ground, in the order 1, 2, 19, 3 to 7, 19, 8 to 13, that applies.
pub fn judged<'a>(bytes: &'a [u8]) -> Result<Image<'a>, Refusal>
    ensures number { answer_of result ≡ judge_image_of bytes.now }
    ensures same { IfOk result (λ image. image.bytes.now ≡ bytes.now) }
{
    first_grounds(bytes)?;
    let word = words::get16(bytes, 0);
    let n = labels::states_of(word);
    let k = words::get16(bytes, 2) as usize;
    let m = words::get32(bytes, 8) as usize;
    sweep::last_grounds(bytes, n, k, m)?;
    Ok(Image {
        bytes,
        edition: Edition::of(word),
        n,
        k,
        m,
    })
}

// Judges an image: 0, or the number of the first ground that applies.
pub fn judge_image(b: &[u8]) -> u32
    ensures { JudgesImage b.now result }
{
    answers::number(judged(b))
}
