// The classroom hub (02, M-112): up to thirty kits, each enrolled at a place with an identity of its own; an access request goes to the place whose identity
// accepts it. A hub goes in by value, and each call hands back the next one.
#![tactic(auto)]

ghost use Rattle.std.specs.Prelude.{[], ◌≡◌};
ghost use Rattle.answers.specs.Answers.{Meets};
ghost use Rattle.hub.specs.Hub.{enrol, enrol_answer, fresh_hub, hear, hear_answer, hub_answer, remove, remove_answer, standing};
ghost use Rattle.hub.specs.laws.Answers.{answered, place_found};

use answers::Refusal;

// How many places there are.
const PLACES: usize = 30;

// What a place holds at which nobody stands; a byte over it, which no call makes, says the same.
const NOBODY: u8 = 64;

// At each place the identity of the kit that stands there, or nobody: a byte, since what is promised is promised for every value of a hub (`standing`, the theorems always_..).
#[derive(Clone, Copy)]
pub struct Hub {
    places: [u8; 30],
}

// What is said of a call that is done.
#[derive(Clone, Copy, PartialEq, Eq)]
pub enum Said {
    // enrolled, at this place
    Place(u8),
    Removed,
    // a request for this place, and in how many places it disagrees with what was received
    Request(u8, u16),
}

// What is said of a call, or why it is refused, and the next hub.
#[derive(Drop)]
pub struct Answered {
    pub said: Result<Said, Refusal>,
    pub next: Hub,
}

// Who stands at a place that holds this byte.
fn standing(byte: u8) -> u8
    ensures { result ≡ standing byte }
{
    if byte <= 63 { byte } else { NOBODY }
}

impl Hub {
    // Nobody stands at any place.
    pub fn fresh() -> Self
        ensures { result ≡ fresh_hub }
    {
        Self {
            places: [NOBODY; 30],
        }
    }

    // The smallest place at which an identity, or nobody, stands.
    fn place_of(&self, who: u8) -> Option<usize>
        ensures { result ≡ place_found self.now who }
    {
        (0..PLACES).find(|place| standing(self.places[*place]) == who)
    }

    // The smallest free place is this identity's; where it is refused, the hub is as before.
    fn seat(&mut self, identity: u64) -> Result<Said, Refusal>
        ensures { answered result self.new ≡ enrol_answer self.old identity }
    {
        if identity > 63 {
            return Err(Refusal::Identity);
        }
        let who = identity as u8;
        let taken = self.place_of(who).is_some();
        if taken {
            return Err(Refusal::Taken);
        }
        let Some(free) = self.place_of(NOBODY) else {
            return Err(Refusal::AllInUse);
        };
        self.places[free] = who;
        Ok(Said::Place(free as u8))
    }

    // Nobody stands at this place any more; where it is refused, the hub is as before.
    fn clear(&mut self, place: u64) -> Result<Said, Refusal>
        ensures { answered result self.new ≡ remove_answer self.old place }
    {
        if place > 29 {
            return Err(Refusal::EmptyPlace);
        }
        let p = place as usize;
        if standing(self.places[p]) == NOBODY {
            return Err(Refusal::EmptyPlace);
        }
        self.places[p] = NOBODY;
        Ok(Said::Removed)
    }

    // The request of the identity that one decoding names goes to the place at which it stands.
    fn request(&self, e: &[u8], d: &mut [u8]) -> Result<Said, Refusal>
        ensures { Meets (hear_answer self.now e.now d.old) (answered result self.now) d.new }
    {
        if d.len() != 8 {
            return Err(Refusal::Length);
        }
        let mut bits = [0u8; 8];
        let named = coder::receive_any_access(e, &mut bits)?;
        let Some(place) = self.place_of(named.identity) else {
            return Err(Refusal::NoneAccepts);
        };
        d.copy_from_slice(&bits);
        Ok(Said::Request(place as u8, named.count))
    }

    // Enrols a kit with this identity: it gets the smallest free place.
    pub fn enrol(self, identity: u64) -> Answered
        ensures { Meets (hub_answer self (enrol identity)) result [] }
    {
        let mut next = self;
        let said = next.seat(identity);
        Answered { said, next }
    }

    // Removes the kit that stands at this place: the place is free again.
    pub fn remove(self, place: u64) -> Answered
        ensures { Meets (hub_answer self (remove place)) result [] }
    {
        let mut next = self;
        let said = next.clear(place);
        Answered { said, next }
    }

    // Hears an access burst: 36 received bits to 8, for the place whose identity accepts it. One decoding names the one identity that can.
    #[tactic(auto, unfolding(crate::specs::Hub::hub_answer))]
    pub fn hear(self, e: &[u8], d: &mut [u8]) -> Answered
        ensures { Meets (hub_answer self (hear e.now d.old)) result d.new }
    {
        let said = self.request(e, d);
        Answered { said, next: self }
    }
}
