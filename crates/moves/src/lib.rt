// Moves images across the editions: the operations forward and back. Nothing is computed anew: depth, worst, records and entries are copied as they stand.
#![tactic(auto)]

ghost use Rattle.std.specs.Prelude.{◌≡◌, ◌+◌, ◌*◌, ◌≤◌, length};
ghost use Rattle.paper.specs.Image.{image_length_of};
ghost use Rattle.paper.specs.Promises.{MovesForward, MovesBack};
ghost use Rattle.answers.specs.Numbers.{answer_of, length_of};
ghost use Rattle.words.specs.Placed.{placed};
ghost use Rattle.moves.specs.Pieces.{head, finished};

use answers::{Built, Refusal};
use image::Image;
use labels::Edition;
use relabel::Tags;

// Puts the first word, and copies what stands between it and the labels.
fn put_head(image: &[u8], word: u16, room: &mut [u8])
    requires { (268 ≤ length image.now) × (268 ≤ length room.old) }
    ensures { room.new ≡ placed room.old 0 (head image.now word) }
{
    words::put16(room, 0, word);
    words::put_bytes(room, 2, &image[2..268]);
}

// Ends a room in which so many labels are held: the records and entries of the image, copied from where they begin, the trailer and the check word.
fn put_rest(image: &Image, from: usize, held: usize, room: &mut [u8])
    requires { let n = image.now.n in let m = image.now.m in
        (held ≤ 8192) × (from + (4 * n + 4 * m) + 12 ≤ length image.now.bytes.now) × (image_length_of n m held ≤ length room.old) }
    ensures { room.new ≡ finished image.now.bytes.now image.now.n image.now.m from held room.old }
{
    let Image { bytes, n, m, .. } = *image;
    let count = 4 * n + 4 * m;
    let at = 268 + 2 * n + 2 * held;
    let rows = &bytes[from..from + count];
    words::put_bytes(room, at, rows);
    let last = bytes.len() - 2;
    let worst = words::get16(bytes, last - 2);
    ending::put_trailer(n, m as u32, held, worst, room, at + count);
    let end = at + count + 10;
    let check = ending::check_before(room, end);
    words::put16(room, end, check);
}

// The image is judged and moved into edition 2: the length of what it is there, or why it is refused.
fn forward_into(bytes: &[u8], room: &mut [u8]) -> Result<u32, Refusal>
    ensures { MovesForward bytes.now room.old (answer_of result) (length_of result) room.new }
{
    let image = judge::judged(bytes)?;
    if let Edition::Two = image.edition {
        return Err(Refusal::Edition);
    }
    let n = image.n;
    let tags = Tags { image: bytes, n };
    let held = tags.held();
    let whole = ending::image_length(n, image.m as u32, held);
    if room.len() < whole as usize {
        return Err(Refusal::Room);
    }
    put_head(bytes, Edition::Two.first_word(n as u16), room);
    tags.put_lists(room);
    put_rest(&image, 268 + 2 * n, held, room);
    Ok(whole)
}

// The image is judged and moved into edition 1, where no state has more labels than one: the length of what it is there, or why it is refused.
fn back_into(bytes: &[u8], room: &mut [u8]) -> Result<u32, Refusal>
    ensures { MovesBack bytes.now room.old (answer_of result) (length_of result) room.new }
{
    let image = judge::judged(bytes)?;
    if let Edition::One = image.edition {
        return Err(Refusal::Edition);
    }
    let labels = image.labels();
    if labels.count_above(1) {
        return Err(Refusal::ManyLabels);
    }
    let n = image.n;
    let whole = ending::image_length(n, image.m as u32, 0);
    if room.len() < whole as usize {
        return Err(Refusal::Room);
    }
    let tags = Tags { image: bytes, n };
    put_head(bytes, Edition::One.first_word(n as u16), room);
    tags.put_numbers(room);
    put_rest(&image, 268 + 2 * n + 2 * labels.behind(), 0, room);
    Ok(whole)
}

// Forward: an image of edition 1 into edition 2. The steps are in proportion to the bytes.
pub fn forward(image: &[u8], room: &mut [u8]) -> Built
    ensures { MovesForward image.now room.old result.refused result.length room.new }
{
    Built::from(forward_into(image, room))
}

// Back: an image of edition 2 into edition 1, where no state has more labels than one. The steps are in proportion to the bytes.
pub fn back(image: &[u8], room: &mut [u8]) -> Built
    ensures { MovesBack image.now room.old result.refused result.length room.new }
{
    Built::from(back_into(image, room))
}
