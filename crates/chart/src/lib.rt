// What take says of its call, as it goes into the chart: by cases, in 01's number and values, and in what it adds to the chart's totals.
#![tactic(auto)]

mod totals;

ghost use Rattle.std.specs.Prelude.{◌≡◌};
ghost use Rattle.chart.specs.Answers.{of_taken};
ghost use Rattle.chart.specs.declared.Untaken.TheVariants.{Refused};

use answers::Refusal;
use burst::BlockNumber;
pub use totals::Totals;

// What a burst brings that is taken.
#[derive(Clone, Copy)]
pub enum Taken {
    // this burst brings no block
    Waiting,
    // the block's number and the count of disagreements
    Speech(BlockNumber, u16),
    Facch(BlockNumber, u16),
}

// Why a take hands over no block where there should be one.
#[derive(Clone, Copy)]
pub enum Untaken {
    Refused(Refusal),
    // the parity of this block is bad; with the count
    Bad(BlockNumber, u16),
    // as many of this block's flags are 1 as are 0, and its parity is bad as FACCH and as speech
    Tie(BlockNumber),
}

impl From<Refusal> for Untaken {
    ghost from_gives = { λ why said. said ≡ Refused why };

    fn from(why: Refusal) -> Untaken {
        Untaken::Refused(why)
    }
}

// The kind of a block, by its flags or as it is told.
#[derive(Clone, Copy)]
pub enum Kind {
    Speech,
    Facch,
    Neither,
}

// What is returned of a take: 01's number, the kind, the block's number and the count, where 01 says that they are returned.
#[derive(Clone, Copy)]
pub struct Values {
    pub number: Option<u16>,
    pub kind: Kind,
    pub block: Option<u16>,
    pub count: Option<u16>,
}

// What take says, in 01's number and values. A good block has no number.
impl From<Result<Taken, Untaken>> for Values {
    ghost from_gives = { λ taken returned. returned ≡ of_taken taken };

    fn from(taken: Result<Taken, Untaken>) -> Values {
        let nothing = Values {
            number: None,
            kind: Kind::Neither,
            block: None,
            count: None,
        };
        match taken {
            Ok(Taken::Waiting) => nothing,
            Ok(Taken::Speech(n, count)) => Values {
                kind: Kind::Speech,
                block: Some(n.0),
                count: Some(count),
                ..nothing
            },
            Ok(Taken::Facch(n, count)) => Values {
                kind: Kind::Facch,
                block: Some(n.0),
                count: Some(count),
                ..nothing
            },
            Err(Untaken::Refused(why)) => Values {
                number: answers::given(why),
                ..nothing
            },
            Err(Untaken::Bad(n, count)) => Values {
                number: answers::given(Refusal::Parity),
                block: Some(n.0),
                count: Some(count),
                ..nothing
            },
            Err(Untaken::Tie(n)) => Values {
                number: answers::given(Refusal::Flags),
                block: Some(n.0),
                ..nothing
            },
        }
    }
}
