// What a block whose parity bits stand at its end is: access and SCH (000, 4.6, 4.7).
ghost use Rattle.std.specs.Prelude.{◌≡◌, ◌+◌, ◌*◌, ◌≤◌};
ghost use Rattle.parity.specs.Asked.{Generates};
ghost use Rattle.trellis.specs.Nearest.{longest};

// Its generator, D^degree + generator, its bits, and its coded bits.
#[derive(Clone, Copy)]
pub(crate) struct Format {
    pub(crate) generator: u64,
    pub(crate) degree: u32,
    pub(crate) bits: usize,
    pub(crate) coded: usize,
    ghost generates: { Generates generator degree },
    // no identity has more bits than the parity
    ghost wide: { 6 ≤ degree },
    // u is the block's bits, its parity bits and four zeros, which are coded
    ghost short: { bits + degree + 4 ≤ longest },
    ghost long: { coded ≡ 2 * (bits + degree + 4) },
}

pub(crate) const ACCESS: Format = Format {
    generator: parity::ACCESS,
    degree: 6,
    bits: 8,
    coded: 36,
};

pub(crate) const SCH: Format = Format {
    generator: parity::SCH,
    degree: 10,
    bits: 25,
    coded: 78,
};
