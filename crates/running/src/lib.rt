// A payload is run over an image, an image with a patch, or a plain table: the tests before it, the loop, and its reports.
#![tactic(auto)]

ghost use Rattle.std.specs.Prelude.{◌≡◌};
ghost use Rattle.paper.specs.Refusals.{first};
ghost use Rattle.paper.specs.Operations.{run_grounds};
ghost use Rattle.answers.specs.Numbers.{answer_of};

use answers::Refusal;

mod automaton;
mod reports;
mod tags;

pub use automaton::{Automaton, Run, Step, ran, take};
pub use reports::put_tagged;
pub use tags::Tags;

// 14 and 15: the state is none of the n, or the payload is over 65,536 bytes.
pub fn allowed(n: usize, state: u32, payload: &[u8]) -> Result<(), Refusal>
    ensures { answer_of result ≡ first (run_grounds n state payload.now) }
{
    if n <= state as usize {
        return Err(Refusal::State);
    }
    if 65536 < payload.len() {
        return Err(Refusal::Payload);
    }
    Ok(())
}
