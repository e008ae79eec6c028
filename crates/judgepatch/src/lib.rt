// Judges a patch against an image.
#![tactic(auto)]

ghost use Rattle.std.specs.Prelude.{◌≡◌, IfOk};
ghost use Rattle.paper.specs.Patch as given;
ghost use Rattle.paper.specs.Operations.{judge_patch_of};
ghost use Rattle.paper.specs.Promises.{JudgesPatch};
ghost use Rattle.answers.specs.Numbers.{answer_of};

use answers::Refusal;
use image::Image;

// An accepted image with a patch that it takes, which lists p states and has q entries.
#[derive(Clone, Copy)]
pub struct Patched<'a> {
    pub image: Image<'a>,
    pub x: &'a [u8],
    pub p: usize,
    pub q: usize,
    ghost accepted: { judge_patch_of image.bytes.now x.now ≡ 0 },
    ghost listed_are: { p ≡ given.listed_states x.now },
    ghost entries_are: { q ≡ given.entries x.now },
}

// Judges a patch on the grounds behind the image's: 22, 23, 24, then 8 to 13 of the image with the patch laid over it.
fn judge_over<'a>(image: &Image<'a>, x: &'a [u8]) -> Result<Patched<'a>, Refusal>
    ensures number { answer_of result ≡ judge_patch_of image.now.bytes.now x.now }
    ensures same { IfOk result (λ both. (both.image.bytes.now ≡ image.now.bytes.now) × (both.x.now ≡ x.now)) }
{
    if patch::shape_bad(x) {
        return Err(Refusal::PatchShape);
    }
    let b = image.bytes;
    if words::get16(x, x.len() - 4) != words::get16(b, b.len() - 2) {
        return Err(Refusal::OtherImage);
    }
    let n = image.n;
    let k = image.k;
    let m = image.m;
    let p = words::get16(x, 0) as usize;
    let q = words::get32(x, 6) as usize;
    if patch::states_bad(x, p, q, n) {
        return Err(Refusal::ListedStates);
    }
    if patch::in_records::records_bad(x, p, q, n, k) {
        return Err(Refusal::Defaults);
    }
    let begins = patch::begins_of(x, p, q);
    if patch::in_entries::entry_classes_bad(x, &begins, p, q, k) {
        return Err(Refusal::EntryClasses);
    }
    if patch::in_entries::next_bad(x, &begins, p, q, n) {
        return Err(Refusal::NextStates);
    }
    overlaid::last_grounds(b, n, k, m, x, p, q)?;
    Ok(Patched {
        image: *image,
        x,
        p,
        q,
    })
}

// Judges a patch against an image: both, or the first ground, the image's, then 22, 23, 24, 8 to 13, that applies.
pub fn judged<'a>(image: &'a [u8], x: &'a [u8]) -> Result<Patched<'a>, Refusal>
    ensures number { answer_of result ≡ judge_patch_of image.now x.now }
    ensures same { IfOk result (λ both. (both.image.bytes.now ≡ image.now) × (both.x.now ≡ x.now)) }
{
    let image = judge::judged(image)?;
    judge_over(&image, x)
}

// Judges a patch against an image: 0, or the number of the first ground that applies.
pub fn judge_patch<'a>(image: &'a [u8], x: &'a [u8]) -> u32
    ensures { JudgesPatch image.now x.now result }
{
    answers::number(judged(image, x))
}
