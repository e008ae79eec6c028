// The text that the program `bounds` prints of a table, every byte of it promised, and the program itself but for its `main`.
#![tactic(auto)]

ghost use Rattle.std.specs.Prelude.{◌≡◌, [], ◌∷◌, ◌++◌, ◌+◌, ◌≤◌, length};
ghost use Rattle.paper.specs.Operations.{judge_table_of};
ghost use Rattle.paper.specs.Text.{line};
ghost use Rattle.paper.specs.Programs.{bounds_line};
ghost use Rattle.paper.specs.Promises.{PrintsBounds};

use figures::Figures;
use text::Text;

// The longest table that the program takes.
const LONGEST: usize = 30000;

// The longest text takes 304 bytes: six numbers of ten digits at most in each of four lines.
type Page = Text<512>;

// Puts the line of a bound and the figures of an image: depth, worst, entries stored, defaults, image length. It takes 66 bytes at most.
fn put_figures(text: &mut Page, bound: u16, f: Figures)
    requires { length text.old + 66 ≤ 512 }
    ensures line { text.new ≡ text.old ++ line (bound ∷ f.depth ∷ f.worst ∷ f.stored ∷ f.defaults ∷ f.bytes ∷ []) }
    ensures short { length text.new ≤ length text.old + 66 }
{
    text.put_line(&[
        bound as u32,
        f.depth as u32,
        f.worst as u32,
        f.stored,
        f.defaults as u32,
        f.bytes,
    ]);
}

// Puts the line of an accepted table compacted with a bound.
fn put_bound(text: &mut Page, table: &[u8], bound: u16, room: &mut [u8])
    requires { (judge_table_of table.now ≡ 0) × (length table.now ≤ 30000) × (65536 ≤ length room.old) × (length text.old + 66 ≤ 512) }
    ensures line { text.new ≡ text.old ++ bounds_line table.now bound }
    ensures short { length text.new ≤ length text.old + 66 }
{
    let f = figures::figures_of(table, bound, room);
    put_figures(text, bound, f);
}

// The text of an input: a line for each of the bounds 0 to 3, or why there is none.
pub fn text_of(input: &[u8]) -> Page
    ensures { PrintsBounds input.now result }
{
    let mut text = Text::new();
    if LONGEST < input.len() {
        text.put_too_long();
        return text;
    }
    let mut room = io::large_buffer();
    let none = figures::figures_of(input, 0, &mut room);
    if none.refused != 0 {
        text.put_refused(none.refused);
        return text;
    }
    text.put(b"bound depth worst stored defaults bytes\n");
    put_figures(&mut text, 0, none);
    put_bound(&mut text, input, 1, &mut room);
    put_bound(&mut text, input, 2, &mut room);
    put_bound(&mut text, input, 3, &mut room);
    text
}

// Reads a table from standard input and prints its text.
pub fn run() {
    let mut input = [0u8; 30001];
    let length = io::read_full(0, &mut input);
    let text = text_of(&input[..length]);
    io::write_all(1, text.as_slice());
}
