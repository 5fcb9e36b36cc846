// The answer to a line: a word and what it says more, numbers and bytes, any of which may be missing.
ghost use Rattle.std.specs.Prelude.{[], ◌∷◌, ◌≡◌, ◌≤◌, ◌<◌, Some, MatchOption, length, take};

use answers::{Refusal, Returned};
use arrayvec::ArrayVec;
use chart::{Kind, Totals, Values};
use coder::{Named, View};
use hub::Said;
use marking::{Fault, No};

// How the bytes that were written are said.
#[derive(Clone, Copy)]
pub enum Form {
    // each is a digit
    Digits,
    // each is an octet, two hexadecimal digits
    Octets,
    // each is a digit, and a space stands after the first 21
    Parted,
}

// Two words, each of which is what stands before its first space; where a word is empty, there is none. The numbers are said, and where there are bytes,
// so many of those that were written, in the form; of Some(0) it is said that there is none.
#[derive(Drop)]
pub struct Answer {
    pub word: ArrayVec<u8, 8>,
    pub what: ArrayVec<u8, 8>,
    pub numbers: ArrayVec<u32, 16>,
    pub bytes: Option<usize>,
    pub form: Form,
}

// The first eight bytes of a word.
fn kept(word: &[u8]) -> ArrayVec<u8, 8>
    ensures { result.items ≡ take 8 word.now }
{
    let mut kept = ArrayVec::new();
    let _ = kept.try_extend_from_slice(&word[..word.len().min(8)]);
    kept
}

impl Answer {
    // A word alone.
    pub fn new(word: &[u8]) -> Self
        ensures { result.word.items ≡ take 8 word.now }
    {
        Self {
            word: kept(word),
            what: ArrayVec::new(),
            numbers: ArrayVec::new(),
            bytes: None,
            form: Form::Digits,
        }
    }

    // The answer to a line that asks for nothing.
    pub fn unknown() -> Self {
        Self::new(b"?")
    }

    // The answer where all begins anew.
    pub fn fresh() -> Self
        ensures { result.word.items ≡ 102 ∷ 114 ∷ 101 ∷ 115 ∷ 104 ∷ [] }
    {
        Self::new(b"fresh")
    }

    // The number of a refusal.
    fn refused(number: u16) -> Self {
        Self::new(b"refused").with_number(u32::from(number))
    }

    // One number more, where there is room.
    fn with_number(mut self, number: u32) -> Self {
        let _ = self.numbers.try_push(number);
        self
    }

    // A number that may be returned.
    fn with(self, returned: Option<u16>) -> Self {
        match returned {
            Some(number) => self.with_number(u32::from(number)),
            None => self,
        }
    }

    // The first so many of the bytes that were written, if any.
    fn with_bytes(mut self, count: usize) -> Self
        ensures { MatchOption result.bytes (count ≡ 0) (λ n. (n ≡ count) × (0 < n)) }
    {
        self.bytes = if count > 0 { Some(count) } else { None };
        self
    }

    // This, of_said and of_frame are no From: they are told besides how many bytes are said.
    // What is returned of a send or of a block that is received: the count and the bits, or the refusal and what is returned besides.
    pub fn of_returned(returned: Returned, bits: usize) -> Self {
        let number = returned.number;
        let count = returned.count;
        match number {
            None => Self::new(b"").with(count).with_bytes(bits),
            Some(number) => Self::refused(number).with(count),
        }
    }

    // The place; or that it is removed; or the place, the count and the bits of a request; or the refusal.
    pub fn of_said(said: Result<Said, Refusal>, bits: usize) -> Self {
        match said {
            Ok(Said::Place(place)) => Self::new(b"").with_number(u32::from(place)),
            Ok(Said::Removed) => Self::new(b"removed"),
            Ok(Said::Request(place, count)) => Self::new(b"")
                .with_number(u32::from(place))
                .with_number(u32::from(count))
                .with_bytes(bits),
            Err(why) => Self::from(why),
        }
    }

    // What was written of a frame, in its form; or the refusal.
    pub fn of_frame(told: Result<(), Refusal>, count: usize, form: Form) -> Self {
        match told {
            Ok(()) => {
                let mut answer = Self::new(b"").with_bytes(count);
                answer.form = form;
                answer
            }
            Err(why) => Self::from(why),
        }
    }

    // No, and what is wrong.
    fn no(fault: Fault) -> Self {
        let mut answer = Self::new(b"no");
        answer.what = kept(fault_word(fault));
        answer
    }

    // 260 bits of speech, 184 of FACCH.
    fn of_kind(kind: Kind) -> Self {
        match kind {
            Kind::Speech => Self::new(b"speech").with_bytes(260),
            Kind::Facch => Self::new(b"facch").with_bytes(184),
            Kind::Neither => Self::new(b"waiting"),
        }
    }

    // The same where the line lent n bytes: what had bits alone is done, and all bytes are said, in their form.
    pub fn with_lent(mut self, n: usize) -> Self
        ensures all { result.bytes ≡ Some n }
        ensures form { result.form ≡ self.form }
    {
        if self.numbers.is_empty() && self.bytes.unwrap_or(0) > 0 {
            self.word = kept(b"done");
        }
        self.bytes = Some(n);
        self
    }
}

impl From<Refusal> for Answer {
    fn from(why: Refusal) -> Self {
        Self::refused(u16::from(u8::from(why)))
    }
}

// The identity and the count, or the refusal.
impl From<Result<Named, Refusal>> for Answer {
    fn from(whose: Result<Named, Refusal>) -> Self {
        match whose {
            Ok(named) => Self::new(b"")
                .with_number(u32::from(named.identity))
                .with_number(u32::from(named.count)),
            Err(why) => Self::from(why),
        }
    }
}

// Yes; or no, and what is wrong first; or the refusal.
impl From<Result<(), No>> for Answer {
    fn from(mark: Result<(), No>) -> Self {
        match mark {
            Ok(()) => Self::new(b"yes"),
            Err(No::Wrong(fault)) => Self::no(fault),
            Err(No::Refused(why)) => Self::from(why),
        }
    }
}

// The sixteen numbers, or the refusal.
impl From<View> for Answer {
    fn from(view: View) -> Self {
        let row = view.row;
        match view.told {
            Ok(()) => {
                let mut answer = Self::new(b"");
                answer.numbers = ArrayVec::from(row.map(u32::from));
                answer
            }
            Err(why) => Self::from(why),
        }
    }
}

// The four numbers.
impl From<Totals> for Answer {
    fn from(totals: Totals) -> Self {
        Self::new(b"")
            .with_number(totals.speech)
            .with_number(totals.facch)
            .with_number(totals.refused)
            .with_number(totals.counts)
    }
}

// What is returned of a take: the kind, the block's number, the count and the bits; or that there is no block yet; or the refusal and what is
// returned besides.
impl From<Values> for Answer {
    fn from(values: Values) -> Self {
        let answer = match values.number {
            None => Self::of_kind(values.kind),
            Some(number) => Self::refused(number),
        };
        answer.with(values.block).with(values.count)
    }
}

// What is wrong with a block or its count, in a word.
fn fault_word(fault: Fault) -> &'static [u8]
    ensures { length result.now ≤ 8 }
{
    match fault {
        Fault::Length => b"length",
        Fault::Tail => b"tail",
        Fault::Count => b"count",
        Fault::Fewest => b"fewest",
    }
}
