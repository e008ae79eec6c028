// An image with a patch as what a payload is run over: each state's default and entries are the patch's where it lists the state, else the image's.
ghost use Rattle.std.specs.Prelude.{◌≡◌, ◌<◌};
ghost use Rattle.paper.specs.View.{look};
ghost use Rattle.paper.specs.Image.{states, classes};
ghost use Rattle.paper.specs.Patch.{patched_view};
ghost use Rattle.paper.specs.Operations.{judge_patch_of};
ghost use Rattle.image.proofs.Reading.{Reading};
ghost use Rattle.abreast.specs.Keeps.{Above};
ghost use Rattle.patch.specs.Listed.{Slots};
ghost use Rattle.patchscan.specs.Placed.{PlacedRows};
ghost use Rattle.patchscan.specs.Rules.{patched_rules};

use image::Found;
use running::{Automaton, Step};

// An image and a patch that it takes, with what is found once for each state: which of the two has its entries, where it falls, where its entries stand and how many
// they are.
#[derive(Clone, Copy)]
pub struct Over<'a> {
    pub image: &'a [u8],
    pub x: &'a [u8],
    pub slots: &'a [u8; 512],
    pub up: &'a [u16; 512],
    pub place: &'a [u32; 512],
    pub left: &'a [u16; 512],
    pub k: usize,
    pub ghost accepted: { judge_patch_of image.now x.now ≡ 0 },
    pub ghost slots_are: { Slots x.now (states image.now) slots.now },
    pub ghost placed: { PlacedRows image.now x.now place.now left.now },
    pub ghost above: { Above (patched_view image.now x.now) (states image.now) up.now },
    pub ghost classes_is: { k ≡ classes image.now },
}

// The entries of a state: a part of the patch where it lists the state, else of the image.
fn row_of<'a>(over: &Over<'a>, s: usize) -> &'a [u8]
    requires { s < states over.now.image.now }
    ensures { Reading (patched_view over.now.image.now over.now.x.now) s result.now }
{
    let from = over.place[s] as usize;
    let size = 4 * over.left[s] as usize;
    let slot = over.slots[s];
    let b = overlaid::either(over.image, over.x, slot);
    &b[from..from + size]
}

// Follows the defaults from a state to the first that stores the class.
fn look_up(over: &Over, state: u16, class: u16) -> Found
    requires { (state < states over.now.image.now) × (class < classes over.now.image.now) }
    ensures { (result.target ≡ (look (patched_view over.now.image.now over.now.x.now) state class).target)
        × (result.hops ≡ (look (patched_view over.now.image.now over.now.x.now) state class).hops) }
{
    let mut s = state;
    let mut hops: u32 = 0;
    loop {
        let row = row_of(over, s as usize);
        if let Some(target) = image::stored_in(row, over.k, class) {
            return Found {
                target,
                hops,
                server: s,
            };
        }
        s = over.up[s as usize];
        hops += 1;
    }
}

impl<'a> Automaton for Over<'a> {
    ghost rules = { λ o. patched_rules o.image.now o.x.now };

    fn step(&self, state: usize, byte: u8) -> Step {
        let class = self.image[12 + byte as usize] as u16;
        let found = look_up(self, state as u16, class);
        Step {
            state: found.target as usize,
            hops: found.hops,
        }
    }
}
