// The text that the program `served` prints of an image and a payload, every byte of it promised, and the program itself but for its `main`.
#![tactic(auto)]

ghost use Rattle.std.specs.Prelude.{◌≡◌, ◌≤◌, length};
ghost use Rattle.paper.specs.Image.{states};
ghost use Rattle.paper.specs.Programs.{image_end_of};
ghost use Rattle.paper.specs.Promises.{PrintsServed};
ghost use Rattle.serving.specs.Cut.{CutAt};
ghost use Rattle.serving.specs.Accepted.{Accepted};
ghost use Rattle.counting.specs.Columns.{CountsOf, server_of, running_of};

use labels::{Edition, Labels};
use text::Text;
use view::View;

// The longest input that the program takes.
const LONGEST: usize = 60000;

// Where the image ends in an input that begins with one: at the length that its counts and labels give, or at the input's own end where that comes first.
fn image_end(input: &[u8]) -> usize
    ensures { CutAt input.now (image_end_of input.now) result }
{
    if input.len() < 280 {
        return input.len();
    }
    let word = words::get16(input, 0);
    let n = labels::states_of(word);
    if input.len() < 268 + 2 * n {
        return input.len();
    }
    let labels = Labels {
        bytes: input,
        at: 268,
        n,
        edition: Edition::of(word),
    };
    let held = labels.behind();
    let m = words::get32(input, 8) as usize;
    let end = 280 + 6 * n + 2 * held + 4 * m;
    if input.len() < end {
        return input.len();
    }
    end
}

// The columns of a payload taken from an image's start state on, for its n states: how often each served, and how often it was the running state when a byte was read.
#[derive(Drop)]
struct Columns {
    n: u16,
    served: [u32; 512],
    ran: [u32; 512],
}

// The columns, read through an image that is opened.
fn columns_of(v: &View, payload: &[u8]) -> Columns
    requires { Accepted v.now.bytes.now v.now.n v.now.k v.now.m × (length payload.now ≤ 60000) }
    ensures { (result.n ≡ states v.now.bytes.now) × CountsOf server_of v.now.bytes.now payload.now result.served × CountsOf running_of v.now.bytes.now payload.now result.ran }
{
    let image = v.bytes;
    let n = v.n;
    let k = v.k;
    let m = v.m;
    let begins = image::begins_of(image, n as usize, m as usize);
    let records = image::records_at(image, n as usize, m as usize);
    let mut served = [0u32; 512];
    let mut ran = [0u32; 512];
    counting::count_bytes(
        image,
        &begins,
        records,
        k as usize,
        payload,
        &mut served,
        &mut ran,
    );
    Columns { n: n, served, ran }
}

// The longest text has 33 bytes in each of 512 lines.
type Page = Text<16896>;

// The text of an input, an image and then a payload: a line for each state, or why there is none. The image is opened once, and everything is read through the view.
pub fn text_of(input: &[u8]) -> Page
    ensures { PrintsServed input.now result }
{
    let mut text = Text::new();
    if LONGEST < input.len() {
        text.put_too_long();
        return text;
    }
    let end = image_end(input);
    let image = &input[..end];
    let number = judge::judge_image(image);
    if number != 0 {
        text.put_refused(number);
        return text;
    }
    let columns = columns_of(&view::open(image), &input[end..]);
    counting::put_lines(&mut text, columns.n as usize, &columns.served, &columns.ran);
    text
}

// Reads an image and a payload from standard input and prints their text.
pub fn run() {
    let mut input = [0u8; 60001];
    let length = io::read_full(0, &mut input);
    let text = text_of(&input[..length]);
    io::write_all(1, text.as_slice());
}
