// An image as what a payload is run over.
ghost use Rattle.running.specs.Rules.{image_rules};

use image::Lookup;
use running::{Automaton, Step};

// What a look-up in an accepted image is handed; a struct of this crate, since `Automaton` and `Lookup` are of others.
#[derive(Clone, Copy)]
pub struct Over<'a> {
    pub lookup: Lookup<'a>,
}

impl<'a> Automaton for Over<'a> {
    ghost rules = { λ o. image_rules o.lookup.image.now };

    fn step(&self, state: usize, byte: u8) -> Step {
        let class = self.lookup.image[12 + byte as usize] as u16;
        let found = self.lookup.look_up(state as u16, class);
        Step {
            state: found.target as usize,
            hops: found.hops,
        }
    }
}
