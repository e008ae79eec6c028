// What ends an image: its length, the trailer and the check word.
#![tactic(auto)]

ghost use Rattle.std.specs.Prelude.{◌≡◌, ◌+◌, ◌%◌, ◌≤◌, ◌<◌, ◌^◌, length, take};
ghost use Rattle.paper.specs.Words.{bytes16, words, check_word_of};
ghost use Rattle.paper.specs.Image.{image_length_of};
ghost use Rattle.paper.specs.Results.{trailer};
ghost use Rattle.words.specs.Placed.{placed};

// The length of an image.
pub fn image_length(n: usize, m: u32, held: usize) -> u32
    requires { (n ≤ 512) × (m ≤ 131072) × (held ≤ 8192) }
    ensures { result ≡ image_length_of n m held }
{
    280 + 6 * n as u32 + 2 * held as u32 + 4 * m
}

// Writes the trailer but for the check word: distance back, whole length, worst.
pub fn put_trailer(n: usize, m: u32, held: usize, worst: u16, room: &mut [u8], at: usize)
    requires { (n ≤ 512) × (m ≤ 131072) × (held ≤ 8192) × (at + 10 ≤ length room.old) }
    ensures { room.new ≡ placed room.old at (trailer n m held worst) }
{
    words::put32(room, at, 4 * m + 12);
    let whole = image_length(n, m, held);
    words::put32(room, at + 4, whole);
    words::put16(room, at + 8, worst);
}

// The check word of the bytes before a place.
pub fn check_before(b: &[u8], at: usize) -> u16
    requires { (at ≤ length b.now) × (at % 2 ≡ 0) × (at < 2 ^ 32) }
    ensures { result ≡ check_word_of (words (take at b.now)) }
{
    words::check_word(&b[..at])
}

// Writes behind the bytes before it their check word.
pub fn put_check(room: &mut [u8], at: usize)
    requires { (at + 2 ≤ length room.old) × (at % 2 ≡ 0) × (at < 2 ^ 32) }
    ensures { room.new ≡ placed room.old at (bytes16 (check_word_of (words (take at room.old)))) }
{
    let check = check_before(room, at);
    words::put16(room, at, check);
}
