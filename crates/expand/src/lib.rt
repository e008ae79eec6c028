// Expand: an image into the table that it stands for. The rows are set down in the room itself, that of each state after that of its default.
#![tactic(auto)]

ghost use Rattle.paper.specs.Promises.{Expands};
ghost use Rattle.answers.specs.Numbers.{answer_of, length_of};

use answers::{Built, Refusal};
use image::Image;
use spread::Spread;

// The image is judged, and the room filled with its table; on ground 16 the room is shorter than that. The length of the table.
fn expand_into(bytes: &[u8], room: &mut [u8]) -> Result<u32, Refusal>
    ensures { Expands bytes.now room.old (answer_of result) (length_of result) room.new }
{
    let image = judge::judged(bytes)?;
    let Image { bytes, n, k, m, .. } = image;
    let held = image.labels().behind();
    let first = 262 + 2 * n + 2 * held;
    let length = spread::row_at(first, k, n);
    if room.len() < length {
        return Err(Refusal::Room);
    }
    let begins = image::begins_of(bytes, n, m);
    let def = sweep::defaults_of(bytes, n, m);
    // No chain of an accepted image is endless, so this refuses nothing.
    let chains = chains::order_of(&def, n)?;
    let spread = Spread {
        image,
        first,
        begins: &begins,
        def: &def,
    };
    spread::put_front(bytes, first, room);
    spread.put_rows(&chains.order, room);
    Ok(length as u32)
}

// Expand: image into table. Every row is copied once and every entry put once, so the steps are in proportion to n k + m.
pub fn expand(image: &[u8], room: &mut [u8]) -> Built
    ensures { Expands image.now room.old result.refused result.length room.new }
{
    Built::from(expand_into(image, room))
}
