// What the operations answer: why they refuse, and what Rattle and C see of an answer.
#![tactic(auto)]

ghost use Rattle.std.specs.Prelude.{◌≡◌};
ghost use Rattle.answers.specs.Numbers.{answer_of};

// Why an input is refused. `docs/OPERATORS.md` says of each number what it means and what to do.
#[derive(Clone, Copy, PartialEq, Eq, Debug)]
pub enum Refusal {
    // The input is shorter than any of its kind.
    TooShort = 1,
    // A count is out of range.
    Counts = 2,
    // The length is not the one that the counts give.
    Length = 3,
    // The trailer's length or distance back is wrong.
    Trailer = 4,
    // The check word differs.
    CheckWord = 5,
    // The start state is not below n.
    StartState = 6,
    // A byte's class is not below k, or a class has no byte.
    Classes = 7,
    // A record or a listed default is wrong, or the counts have another sum.
    Defaults = 8,
    // An entry's class is not below k, or does not rise.
    EntryClasses = 9,
    // A next state is not below n.
    NextStates = 10,
    // A chain of defaults has no end.
    Endless = 11,
    // An entry is what its default's chain gives.
    Needless = 12,
    // The stated depth or worst is not the defined number.
    Costs = 13,
    // The state to begin in is not below n.
    State = 14,
    // The payload is longer than 65,536 bytes.
    Payload = 15,
    // The room is shorter than the result.
    Room = 16,
    // There is no such order.
    Order = 18,
    // A state has too many labels, or they do not rise above 0.
    Labels = 19,
    // The image is of the other edition already.
    Edition = 20,
    // A state has more labels than edition 1 has room for.
    ManyLabels = 21,
    // The input has not the shape of a patch.
    PatchShape = 22,
    // The patch was made for an image with another check word.
    OtherImage = 23,
    // A state that the patch lists is not below n, or does not rise.
    ListedStates = 24,
    // A default shares fewer than two classes with its state.
    FewShared = 25,
    // The input has not the shape of a word list.
    ListShape = 26,
    // A label of a word list is 0 or stands twice.
    ListLabels = 27,
    // The table would have more than 512 states.
    ManyStates = 28,
}

impl From<Refusal> for u32 {
    ghost use Rattle.answers.specs.Numbers.{number_of};

    ghost from_gives = { λ refusal number. number ≡ number_of refusal };

    fn from(refusal: Refusal) -> u32 {
        refusal as u32
    }
}

// The number that Rattle and C see: 0, or that of the refusal.
pub fn number<T: Drop>(answer: Result<T, Refusal>) -> u32
    ensures { result ≡ answer_of answer }
{
    match answer {
        Ok(_) => 0,
        Err(refusal) => u32::from(refusal),
    }
}

// What compact, write, expand and the moves answer: 0 or the refusal's number, and the length of the result.
#[repr(C)]
#[derive(Drop)]
pub struct Built {
    pub refused: u32,
    pub length: u32,
}

impl From<Result<u32, Refusal>> for Built {
    ghost use Rattle.answers.specs.Numbers.{answer_of, length_of};

    ghost from_gives = { λ answer built. (built.refused ≡ answer_of answer) × (built.length ≡ length_of answer) };

    fn from(answer: Result<u32, Refusal>) -> Built {
        match answer {
            Ok(length) => Built { refused: 0, length },
            Err(refusal) => Built {
                refused: u32::from(refusal),
                length: 0,
            },
        }
    }
}

// A run over a payload: bytes taken, the state behind them, reports and hops.
#[derive(Clone, Copy)]
pub struct Ran {
    pub taken: u32,
    pub state: u32,
    pub reports: u32,
    pub hops: u32,
}

// What scan and walk answer: 0 or the refusal's number, bytes taken, state, reports and hops.
#[repr(C)]
#[derive(Drop)]
pub struct Scanned {
    pub refused: u32,
    pub taken: u32,
    pub state: u32,
    pub reports: u32,
    pub hops: u32,
}

impl From<Result<Ran, Refusal>> for Scanned {
    ghost use Rattle.answers.specs.Numbers.{Scans};

    ghost from_gives = { λ answer scanned. Scans answer scanned.refused scanned.taken scanned.state scanned.reports scanned.hops };

    fn from(answer: Result<Ran, Refusal>) -> Scanned {
        match answer {
            Ok(run) => Scanned {
                refused: 0,
                taken: run.taken,
                state: run.state,
                reports: run.reports,
                hops: run.hops,
            },
            Err(refusal) => Scanned {
                refused: u32::from(refusal),
                taken: 0,
                state: 0,
                reports: 0,
                hops: 0,
            },
        }
    }
}
