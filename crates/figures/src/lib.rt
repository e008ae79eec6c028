// The figures of a table compacted in order 0 with a path bound, read out of the image itself.
#![tactic(auto)]

ghost use Rattle.std.specs.Prelude.{◌≡◌};
ghost use Rattle.paper.specs.Below.{bit, given};
ghost use Rattle.paper.specs.Image.{states, depth, worst, entries};
ghost use Rattle.paper.specs.Operations.{compact};
ghost use Rattle.paper.specs.Programs.{defaults_in_of};
ghost use Rattle.facts.proofs.ImageFacts.{AcceptedImage};
ghost use Rattle.image.specs.Forms.{default_of};
ghost use Rattle.image.specs.Laid.{Laid};
ghost use Rattle.figures.specs.Figures.{Shows};

// The figures of a table compacted: 0 or the refusal's number, depth, worst, entries stored, defaults, length.
#[derive(Drop)]
pub struct Figures {
    pub refused: u32,
    pub depth: u16,
    pub worst: u16,
    pub stored: u32,
    pub defaults: u16,
    pub bytes: u32,
}

// Counts one for a state that falls to another, and none for a root.
fn falls(fallback: Option<u16>) -> u16
    ensures { result ≡ bit (given (default_of fallback)) }
{
    match fallback {
        None => 0,
        Some(_) => 1,
    }
}

// How many of the n states of an image have a default. Each record is read through the view of the image.
fn defaults_in(image: &[u8], n: u16) -> u16
    requires { Laid image.now × (n ≡ states image.now) }
    ensures { result ≡ defaults_in_of image.now }
{
    let mut count: u16 = 0;
    for s in 0..n {
        count += falls(kamordast::record_from(image, s).fallback);
    }
    count
}

// The figures that stand in an accepted image.
fn figures_in(image: &[u8], bytes: u32) -> Figures
    requires { AcceptedImage image.now }
    ensures { (result.refused ≡ 0) × (result.depth ≡ depth image.now) × (result.worst ≡ worst image.now) × (result.stored ≡ entries image.now)
        × (result.defaults ≡ defaults_in_of image.now) × (result.bytes ≡ bytes) }
{
    let counts = kamordast::counted(image);
    let defaults = defaults_in(image, counts.n);
    Figures {
        refused: 0,
        depth: words::get16(image, 6),
        worst: words::get16(image, image.len() - 4),
        stored: counts.m,
        defaults: defaults,
        bytes: bytes,
    }
}

// The figures of a table compacted in order 0 with a path bound into the room.
pub fn figures_of(table: &[u8], bound: u16, room: &mut [u8]) -> Figures
    ensures { Shows (compact table.now 0 bound room.old) result.refused result.depth result.worst result.stored result.defaults result.bytes }
{
    let built = kamordast::compact(table, 0, bound, room);
    if built.refused != 0 {
        return Figures {
            refused: built.refused,
            depth: 0,
            worst: 0,
            stored: 0,
            defaults: 0,
            bytes: 0,
        };
    }
    figures_in(&room[..built.length as usize], built.length)
}
