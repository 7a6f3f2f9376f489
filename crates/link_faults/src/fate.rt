ghost use Rattle.std.specs.Prelude.{◌≡◌};
ghost use Rattle.link_faults.specs.Fates.{fate_of};

use crate::plan::FaultPlan;

/// What becomes of a message.
#[derive(Clone, Copy, Debug, PartialEq)]
pub enum Fate {
    /// It is not queued.
    Lost,
    /// It is queued twice.
    Twice,
    /// It is held, and queued after what becomes of the next one.
    Late,
    /// It is queued without its last byte.
    Cut,
    /// It is queued.
    Once,
}

/// What a word says of a message: the word modulo 100 is below the first percentage, or else below the first two together, and so on.
pub fn fate_of(plan: &FaultPlan, word: u32) -> Fate
    ensures { result ≡ fate_of plan.now word }
{
    let value = word % 100;
    let lost = u32::from(plan.lose);
    let twice = lost + u32::from(plan.repeat);
    let late = twice + u32::from(plan.late);
    let cut = late + u32::from(plan.cut);
    if value < lost {
        Fate::Lost
    } else if value < twice {
        Fate::Twice
    } else if value < late {
        Fate::Late
    } else if value < cut {
        Fate::Cut
    } else {
        Fate::Once
    }
}
