// Where a search keeps the choices of its pairs, one word for each pair: in an array, or nowhere, where nothing is walked back.
ghost use Rattle.std.specs.Prelude.{ℕ, ◌≡◌, ◌<◌, length, get_or};
ghost use Rattle.bits.specs.Bits.{tab, value};
ghost use Rattle.trellis.specs.laws.Steps.{chosen_at, turned};

use crate::LONGEST;
use crate::steps::choices;

pub(crate) trait Memory {
    // There is a place for the word of pair k.
    ghost fits: { Self → ℕ → Type 0 };

    // The word of pair k is this one.
    ghost holds: { Self → ℕ → ℕ → Type 0 };

    // Keeps the choices of pair k, before which the row stood, and whose costs are w.
    fn keep(&mut self, k: usize, row: [u16; 16], w: [u16; 16])
        requires { fits self.old k }
        ensures places { (i : ℕ) → fits self.old i → fits self.new i }
        ensures kept { holds self.new k (value (tab 16 (turned (chosen_at row w)))) }
        ensures before { (i word : ℕ) → i < k → holds self.old i word → holds self.new i word };
}

impl Memory for [u16; LONGEST] {
    ghost fits = { λ words k. k < length words };

    ghost holds = { λ words k word. get_or words k 0 ≡ word };

    fn keep(&mut self, k: usize, row: [u16; 16], w: [u16; 16]) {
        self[k] = choices(row, w);
    }
}

impl Memory for () {
    ghost fits = { λ nothing k. Unit {0} };

    ghost holds = { λ nothing k word. Unit {0} };

    fn keep(&mut self, _k: usize, _row: [u16; 16], _w: [u16; 16]) {}
}
