// Rewrite: an image without its defaults that share fewer than two classes. What stays is copied; a state that becomes a root gets its whole row.
#![tactic(auto)]

ghost use Rattle.std.specs.Prelude.{◌≡◌, ◌≤◌, ◌<◌, ◌^◌, length};
ghost use Rattle.paper.specs.Image.{classes};
ghost use Rattle.paper.specs.Promises.{Rewrites};
ghost use Rattle.answers.specs.Numbers.{answer_of, length_of};
ghost use Rattle.image.specs.Passed.{Passed};
ghost use Rattle.build.specs.Measured.{Fills};
ghost use Rattle.rewrite.specs.Staying.{stay_number, StayNumbers, count_after_of, CountsAfter, RecordCounts};

use answers::{Built, Refusal};
use image::Image;
use rewriting::Rewriting;

mod rewriting;

// The count of each state.
fn counts_of(image: &[u8], n: usize, m: usize) -> [u16; 512]
    requires { Passed image.now n (classes image.now) m }
    ensures { RecordCounts image.now n result }
{
    let records = image::records_at(image, n, m);
    tally::of_states(n, |s| words::get16(image, records + 4 * s + 2))
}

// The default that stays of a state that keeps so many of k classes: 65535 where it shares fewer than two with its default.
fn stays(d: u16, count: u16, k: usize) -> u16
    ensures { result ≡ stay_number k count d }
{
    if tally::shares_few(d, count, k) {
        return 65535;
    }
    d
}

// The defaults that stay.
fn stay_of(def: &[u16; 512], counts: &[u16; 512], n: usize, k: usize) -> [u16; 512]
    requires { n ≤ 512 }
    ensures { StayNumbers k n counts.now def.now result }
{
    tally::of_states(n, |s| stays(def[s], counts[s], k))
}

// The count of a state with the default that stays: k for a root, else as before.
fn count_after(d: u16, count: u16, k: usize) -> u16
    requires { k ≤ 256 }
    ensures { result ≡ count_after_of k count d }
{
    if d == 65535 {
        return k as u16;
    }
    count
}

// The counts with the defaults that stay.
fn counts_after(stay: &[u16; 512], counts: &[u16; 512], n: usize, k: usize) -> [u16; 512]
    requires { (n ≤ 512) × (k ≤ 256) }
    ensures { CountsAfter k n counts.now stay.now result }
{
    tally::of_states(n, |s| count_after(stay[s], counts[s], k))
}

// 16: the room is shorter than the image. Else the image is copied. The length of the image.
fn copied(image: &[u8], room: &mut [u8]) -> Result<u32, Refusal>
    requires { length image.now < 2 ^ 32 }
    ensures { Fills image.now room.old (answer_of result) (length_of result) room.new }
{
    let length = image.len();
    if room.len() < length {
        return Err(Refusal::Room);
    }
    words::put_bytes(room, 0, image);
    Ok(length as u32)
}

// The image is judged, and the room filled with the rewritten image; on ground 16 the room is shorter than that. Where all defaults are worth their hops the image stays as it is. The length of the rewritten image.
fn rewritten_into(image: &[u8], room: &mut [u8]) -> Result<u32, Refusal>
    ensures { Rewrites image.now room.old (answer_of result) (length_of result) room.new }
{
    let image = judge::judged(image)?;
    let Image { bytes, n, k, m, .. } = image;
    let def = sweep::defaults_of(bytes, n, m);
    let before = counts_of(bytes, n, m);
    if !tally::some_share_few(&def, &before, n, k) {
        return copied(bytes, room);
    }
    let stay = stay_of(&def, &before, n, k);
    let counts = counts_after(&stay, &before, n, k);
    let chains = chains::order_of(&stay, n)?;
    let begins = image::begins_of(bytes, n, m);
    let records = image::records_at(bytes, n, m);
    let source = Rewriting {
        image,
        records,
        begins: &begins,
        def: &def,
        stay: &stay,
    };
    build::image_into(&source, &counts, &chains, room)
}

// Rewrite: image into the image without the defaults not worth their hops.
pub fn rewrite(image: &[u8], room: &mut [u8]) -> Built
    ensures { Rewrites image.now room.old result.refused result.length room.new }
{
    Built::from(rewritten_into(image, room))
}
