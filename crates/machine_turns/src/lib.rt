// Single turns in order, told as one call (document 02, E1): what a whole schedule answers and leaves (specs/Schedule), what is proved
// of it, and the part of its answer that hangs on the lengths of the slices alone. The call itself is crate machine_schedule's.
#![tactic(auto)]

ghost use Rattle.std.specs.Prelude.{◌≡◌};
ghost use Rattle.machine_turns.specs.declared.Unmade.TheVariants.{Image};
ghost use Rattle.machine_turns.specs.Schedule.{needed, unmade_number, unmade_place, outcome_of};

use image_check::ImageFault;
use machine::UNFIT;
use machine_store::State;

// Why a schedule makes no turn: the image's own refusal, a state that does not fit it, pairs that are odd, or records that are shorter
// than they need, with that length.
#[derive(Clone, Copy)]
pub enum Unmade {
    Image(ImageFault),
    Unfit,
    OddPairs,
    RecordsShort(usize),
}

impl Unmade {
    // The refusal's number in document 02, and its place: 0 where it has none.
    pub fn number(self) -> u8
        ensures { result ≡ unmade_number self }
    {
        match self {
            Unmade::Image(fault) => fault.number(),
            Unmade::Unfit => UNFIT,
            Unmade::OddPairs => 30,
            Unmade::RecordsShort(_) => 31,
        }
    }

    pub fn place(self) -> usize
        ensures { result ≡ unmade_place self }
    {
        match self {
            Unmade::Image(fault) => usize::from(fault.place()),
            Unmade::RecordsShort(needed) => needed,
            _ => 0,
        }
    }
}

impl From<ImageFault> for Unmade {
    ghost from_gives = { λ fault why. why ≡ Image fault };

    fn from(fault: ImageFault) -> Unmade {
        Unmade::Image(fault)
    }
}

// The answer, how many bytes of records are written or why no turn is made, and the state behind the last turn.
#[derive(Clone, Copy)]
pub struct Scheduled {
    pub outcome: Result<usize, Unmade>,
    pub state: State,
}

// Whether so many bytes of pairs are pairs, and their records, six bytes for each pair, have room.
pub fn outcome_of(pairs: usize, room: usize) -> Result<usize, Unmade>
    ensures { result ≡ outcome_of pairs room }
{
    let needed = pairs.saturating_mul(3);
    if pairs % 2 != 0 {
        return Err(Unmade::OddPairs);
    }
    if room < needed {
        return Err(Unmade::RecordsShort(needed));
    }
    Ok(needed)
}
