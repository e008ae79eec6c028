// Text put into lent bytes: pieces, numbers in decimal, lines of numbers, and the lines of an input that is refused. Each function answers the place behind what it put.
ghost use Rattle.std.specs.Prelude.{[], ◌∷◌, ◌<◌, length};
ghost use Rattle.paper.specs.Text.{decimal, line, refused_line, too_long_line};
ghost use Rattle.text.specs.Puts.{Holds, Puts};

// Puts a piece of text.
pub fn put(out: &mut [u8], at: usize, piece: &[u8]) -> usize
    requires { Holds out.old at piece.now }
    ensures { Puts out.old at piece.now out.new result }
{
    words::put_bytes(out, at, piece);
    at + piece.len()
}

// Puts a number in decimal.
pub fn put_number(out: &mut [u8], at: usize, number: u32) -> usize
    requires { Holds out.old at (decimal number) }
    ensures { Puts out.old at (decimal number) out.new result }
{
    let mut digits = [0u8; 20];
    let count = io::decimal(number as u64, &mut digits);
    put(out, at, &digits[..count])
}

// Puts a space and a number.
fn put_next(out: &mut [u8], at: usize, number: u32) -> usize
    requires { Holds out.old at (32 ∷ decimal number) }
    ensures { Puts out.old at (32 ∷ decimal number) out.new result }
{
    let here = put(out, at, b" ");
    put_number(out, here, number)
}

// Puts a line's end.
fn put_end(out: &mut [u8], at: usize) -> usize
    requires { Holds out.old at (10 ∷ []) }
    ensures { Puts out.old at (10 ∷ []) out.new result }
{
    put(out, at, b"\n")
}

// Puts a line of numbers, one at least, one space apart.
pub fn put_line(out: &mut [u8], at: usize, numbers: &[u32]) -> usize
    requires { (0 < length numbers.now) × Holds out.old at (line numbers.now) }
    ensures { Puts out.old at (line numbers.now) out.new result }
{
    let mut here = put_number(out, at, numbers[0]);
    for i in 1..numbers.len() {
        here = put_next(out, here, numbers[i]);
    }
    put_end(out, here)
}

// Puts that an input is refused, and the number.
pub fn put_refused(out: &mut [u8], at: usize, number: u32) -> usize
    requires { Holds out.old at (refused_line number) }
    ensures { Puts out.old at (refused_line number) out.new result }
{
    let here = put(out, at, b"refused ");
    put_line(out, here, &[number])
}

// Puts that an input is too long.
pub fn put_too_long(out: &mut [u8], at: usize) -> usize
    requires { Holds out.old at too_long_line }
    ensures { Puts out.old at too_long_line out.new result }
{
    put(out, at, b"too long\n")
}
