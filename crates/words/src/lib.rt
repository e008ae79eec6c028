// Little-endian numbers in lent bytes, read and written, the largest of some, bytes copied, and the check word.
#![tactic(auto)]

ghost use Rattle.std.specs.Prelude.{◌≡◌, ◌+◌, ◌%◌, ◌^◌, ◌<◌, ◌≤◌, max, length, take, drop, slice_index};
ghost use Rattle.paper.specs.Below.{largest as largest_of};
ghost use Rattle.paper.specs.Words.{number16, number32, bytes16, bytes32, words, check_word_of};
ghost use Rattle.words.specs.Placed.{placed};

// The number of 16 bits at `at`.
pub fn get16(b: &[u8], at: usize) -> u16
    requires { at + 1 < length b.now }
    ensures { result ≡ number16 b.now at }
{
    u16::from_le_bytes([b[at], b[at + 1]])
}

// The number of 32 bits at `at`.
pub fn get32(b: &[u8], at: usize) -> u32
    requires { at + 3 < length b.now }
    ensures { result ≡ number32 b.now at }
{
    u32::from_le_bytes([b[at], b[at + 1], b[at + 2], b[at + 3]])
}

// Writes x in 16 bits at `at`.
pub fn put16(room: &mut [u8], at: usize, x: u16)
    requires { at + 1 < length room.old }
    ensures { room.new ≡ placed room.old at (bytes16 x) }
{
    let [low, high] = x.to_le_bytes();
    room[at] = low;
    room[at + 1] = high;
}

// Writes x in 32 bits at `at`.
pub fn put32(room: &mut [u8], at: usize, x: u32)
    requires { at + 3 < length room.old }
    ensures { room.new ≡ placed room.old at (bytes32 x) }
{
    put16(room, at, (x % 65536) as u16);
    put16(room, at + 2, (x / 65536) as u16);
}

// The largest of some numbers, and of `least`.
pub fn most(list: &[u16], least: u16) -> u16
    ensures { result ≡ max least (largest_of (length list.now) (λ i. slice_index list.now i)) }
{
    let mut largest = least;
    for x in list {
        largest = largest.max(*x);
    }
    largest
}

// Writes bytes at `at`. It stays a function of its own: made a part of `build::image_into` its loop costs that one an instruction or two a cell.
#[inline(never)]
pub fn put_bytes(room: &mut [u8], at: usize, bytes: &[u8])
    requires { at + length bytes.now ≤ length room.old }
    ensures { room.new ≡ placed room.old at bytes.now }
{
    // `copy_from_slice` would call memmove, which the part's library need not have.
    copy(bytes, 0, bytes.len(), room, at);
}

// The check word of all words, as the boot ROM runs it: in sixteen bits, first word to last. A sum that comes out smaller than the word has wrapped, and the carry comes round.
pub fn check_word(b: &[u8]) -> u16
    requires { (length b.now % 2 ≡ 0) × (length b.now < 2 ^ 32) }
    ensures { result ≡ check_word_of (words b.now) }
{
    let count = b.len() / 2;
    let mut sum: u16 = 0;
    for i in 0..count {
        let word = get16(b, 2 * i);
        let total = sum.wrapping_add(word);
        sum = if total < word { total + 1 } else { total };
    }
    65535 - sum
}

// Copies `count` bytes, from `start` on, to `at`.
pub fn copy(from: &[u8], start: usize, count: usize, room: &mut [u8], at: usize)
    requires { (start + count ≤ length from.now) × (at + count ≤ length room.old) }
    ensures { room.new ≡ placed room.old at (take count (drop start from.now)) }
{
    let mut i = 0;
    while i < count {
        room[at + i] = from[start + i];
        i += 1;
    }
}
