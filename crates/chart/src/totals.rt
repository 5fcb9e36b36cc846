// The chart's totals (02, M-100): four numbers that the receiving stream carries from call to call.
ghost use Rattle.std.specs.Prelude.{◌≡◌};
ghost use Rattle.chart.specs.Totals.{adds, counted};

use crate::{Taken, Untaken};

#[derive(Clone, Copy, Default)]
pub struct Totals {
    // good speech blocks
    pub speech: u32,
    // good FACCH blocks
    pub facch: u32,
    // blocks refused with 8 or 9
    pub refused: u32,
    // the summed counts of the good ones
    pub counts: u32,
}

// What one answer adds to them.
#[tactic(auto, unfolding(crate::specs::Totals::adds))]
fn adds(told: Result<Taken, Untaken>) -> Totals
    ensures { result ≡ adds told }
{
    let nothing = Totals::default();
    let refused = Totals {
        refused: 1,
        ..nothing
    };
    match told {
        Ok(Taken::Waiting) => nothing,
        Ok(Taken::Speech(_, count)) => Totals {
            speech: 1,
            counts: u32::from(count),
            ..nothing
        },
        Ok(Taken::Facch(_, count)) => Totals {
            facch: 1,
            counts: u32::from(count),
            ..nothing
        },
        Err(Untaken::Refused(_)) => nothing,
        Err(Untaken::Bad(_, _)) => refused,
        Err(Untaken::Tie(_)) => refused,
    }
}

impl Totals {
    // The totals after one answer more. A number that would pass the highest stays there.
    #[tactic(auto, unfolding(crate::specs::Totals::more, crate::specs::Totals::counted))]
    pub fn counted(self, told: Result<Taken, Untaken>) -> Totals
        ensures { result ≡ counted self told }
    {
        let more = adds(told);
        Totals {
            speech: self.speech.saturating_add(more.speech),
            facch: self.facch.saturating_add(more.facch),
            refused: self.refused.saturating_add(more.refused),
            counts: self.counts.saturating_add(more.counts),
        }
    }
}
