// A block whose flags and coded bits are known: its kind, and what it brings (01, Bursts and streams; 02, M-101).
#![tactic(auto)]

ghost use Rattle.std.specs.Prelude.{◌≡◌, length};
ghost use Rattle.answers.specs.Answers.{Meets};
ghost use Rattle.bits.specs.Bits.{Symbols};
ghost use Rattle.chart.specs.declared.Kind.TheVariants.{Speech, Facch, Neither};
ghost use Rattle.kinds.specs.Kinds.{vote, by_kind};
ghost use Rattle.kinds.specs.laws.Kinds.{as_untaken};

use answers::Unheard;
use burst::BlockNumber;
use chart::{Kind, Taken, Untaken};
use std::cmp::Ordering;

// Which flags are 1 and which are 0, each counted: more ones mean FACCH, more zeros speech; as many say neither (02, M-102).
#[tactic(auto, unfolding(crate::specs::Kinds::vote))]
fn vote(ones: u8, zeros: u8) -> Kind
    ensures { result ≡ vote ones zeros }
{
    let facch = ones.count_ones();
    let speech = zeros.count_ones();
    match facch.cmp(&speech) {
        Ordering::Greater => Kind::Facch,
        Ordering::Less => Kind::Speech,
        Ordering::Equal => Kind::Neither,
    }
}

// Why coder's entry doesn't hand block n over, as take says it.
fn as_untaken(n: BlockNumber, why: Unheard) -> Untaken
    ensures { result ≡ as_untaken n.0 why }
{
    match why {
        Unheard::Bad(count) => Untaken::Bad(n, count),
        Unheard::Refused(why) => Untaken::Refused(why),
    }
}

// The next three take what `receive` takes, and are no plainer over arrays: `receive` is public (docs/CONTRACTS.md), and its slices would be tested once more.
// The coded bits c of block n as speech.
// These two are not one: they differ in the entry, in what a good block is told as, and in how much of d is lent, and each promises its own kind.
fn receive_speech(n: BlockNumber, c: &[u8], d: &mut [u8]) -> Result<Taken, Untaken>
    requires { (length c.now ≡ 456) × Symbols c.now × (length d.old ≡ 260) }
    ensures { Meets (by_kind Speech n.0 c.now d.old) result d.new }
{
    coder::receive_speech(c, d)
        .map(|count| Taken::Speech(n, count))
        .map_err(|why| as_untaken(n, why))
}

// The coded bits c of block n as FACCH; the last 76 bytes are left.
fn receive_facch(n: BlockNumber, c: &[u8], d: &mut [u8]) -> Result<Taken, Untaken>
    requires { (length c.now ≡ 456) × Symbols c.now × (length d.old ≡ 260) }
    ensures { Meets (by_kind Facch n.0 c.now d.old) result d.new }
{
    coder::receive_control(c, &mut d[0..184])
        .map(|count| Taken::Facch(n, count))
        .map_err(|why| as_untaken(n, why))
}

// 02, M-101: the coded bits c of block n, of which as many flags are 1 as are 0: FACCH if it is good as that, else speech if it is good as that, else neither.
fn receive_tied(n: BlockNumber, c: &[u8], d: &mut [u8]) -> Result<Taken, Untaken>
    requires { (length c.now ≡ 456) × Symbols c.now × (length d.old ≡ 260) }
    ensures { Meets (by_kind Neither n.0 c.now d.old) result d.new }
{
    if let Ok(facch) = receive_facch(n, c, d) {
        return Ok(facch);
    }
    receive_speech(n, c, d).map_err(|_| Untaken::Tie(n))
}

// The coded bits c of block n, as the kind that its flags say.
pub fn receive(
    ones: u8,
    zeros: u8,
    n: BlockNumber,
    c: &[u8],
    d: &mut [u8],
) -> Result<Taken, Untaken>
    requires { (length c.now ≡ 456) × Symbols c.now × (length d.old ≡ 260) }
    ensures { Meets (by_kind (vote ones zeros) n.0 c.now d.old) result d.new }
{
    match vote(ones, zeros) {
        Kind::Speech => receive_speech(n, c, d),
        Kind::Facch => receive_facch(n, c, d),
        Kind::Neither => receive_tied(n, c, d),
    }
}
