// The loop over the bytes of a payload.
ghost use Rattle.std.specs.Prelude.{◌≡◌, ◌≤◌, ◌<◌, length};
ghost use Rattle.paper.specs.Operations.{scanning};
ghost use Rattle.paper.specs.Promises.{IsScanned};
ghost use Rattle.labels.specs.Editions.{edition_in};
ghost use Rattle.running.specs.Rules.{Rules, found_on, run_of, Reached, Labelled};
ghost use Rattle.running.specs.Running.{went_of, Small};

use super::reports::put_tagged;
use super::tags::Tags;
use answers::Ran;

// Where a byte leads: the next state, as a word of the machine so that no turn widens it, and the hops that it costs.
#[derive(Clone, Copy)]
pub struct Step {
    pub state: usize,
    pub hops: u32,
}

// What a payload is run over.
pub trait Automaton {
    // Its states, the class of each byte, its look-up, and the labels of each state.
    ghost rules: { Self → Rules };

    // Where a byte leads from a state.
    fn step(&self, state: usize, byte: u8) -> Step
        requires { state < (rules self.now).states }
        ensures state { result.state ≡ (found_on (rules self.now) state byte).target }
        ensures hops { result.hops ≡ (found_on (rules self.now) state byte).hops }
        ensures reached { Reached (rules self.now).states result.state result.hops };
}

// The running scan: the state, the hops and the reports so far.
#[derive(Clone, Copy)]
pub struct Run {
    pub state: usize,
    pub hops: u32,
    pub reports: u32,
}

// Takes one byte: the running scan is lent.
pub fn take<A: Automaton>(run: &mut Run, automaton: &A, byte: u8)
    requires { Small (A.rules automaton.now) run.old }
    ensures went { run.new ≡ went_of (A.rules automaton.now) run.old byte }
    ensures reached { Reached (A.rules automaton.now).states (found_on (A.rules automaton.now) run.old.state byte).target (found_on (A.rules automaton.now) run.old.state byte).hops }
{
    let step = automaton.step(run.state, byte);
    run.state = step.state;
    run.hops += step.hops;
}

// Runs a payload from a state. It stops before the first byte whose reports have no room.
pub fn ran<A: Automaton>(
    automaton: &A,
    tags: &Tags,
    state: usize,
    payload: &[u8],
    room: &mut [u8],
) -> Ran
    requires { Labelled (A.rules automaton.now) tags.now.labels.bytes.now tags.now.labels.at tags.now.labels.n (edition_in tags.now.labels.edition)
        × (state < (A.rules automaton.now).states) × (length payload.now ≤ 65536) }
    ensures { IsScanned (scanning 0 (run_of (A.rules automaton.now) state payload.now (length room.old)) room.old) 0 result.taken result.state result.reports result.hops room.new }
{
    let most = room.len() / 6;
    let mut run = Run {
        state,
        hops: 0,
        reports: 0,
    };
    for (i, byte) in payload.iter().enumerate() {
        let mut next = run;
        take(&mut next, automaton, *byte);
        let tag = tags.of(next.state);
        if tag != 0 {
            let reports = run.reports as usize;
            let many = tags.labels.edition.how_many(tag);
            if most < reports + many {
                return Ran {
                    taken: i as u32,
                    state: run.state as u32,
                    reports: run.reports,
                    hops: run.hops,
                };
            }
            put_tagged(
                room,
                6 * reports,
                i as u32,
                tags.labels.bytes,
                tags.labels.at,
                tags.firsts[next.state],
                tag,
                tags.labels.edition,
            );
            next.reports = (reports + many) as u32;
        }
        run = next;
    }
    Ran {
        taken: payload.len() as u32,
        state: run.state as u32,
        reports: run.reports,
        hops: run.hops,
    }
}
