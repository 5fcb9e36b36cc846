// Octets and their bits: bit 1 of an octet, as 001 numbers them, is the highest.
ghost use Rattle.std.specs.Prelude.{◌≡◌, ◌*◌, length};
ghost use Rattle.bits.specs.Bits.{Bits, value};
ghost use Rattle.frames.specs.Octets.{packed, unpacked};

// The octet that eight bits make, the highest first.
fn octet_of(eight: &[u8]) -> u8
    requires { (length eight.now ≡ 8) × Bits eight.now }
    ensures { result ≡ value eight.now }
{
    let mut x = 0;
    for bit in eight {
        x = 2 * x + *bit;
    }
    x
}

// Bits into octets.
pub fn pack(bits: &[u8], octets: &mut [u8])
    requires { (Bits bits.now) × (length bits.now ≡ 8 * length octets.old) }
    ensures { octets.new ≡ packed bits.now }
{
    for (o, octet) in octets.iter_mut().enumerate() {
        *octet = octet_of(&bits[8 * o..8 * o + 8]);
    }
}

// Octets into bits.
pub fn unpack(octets: &[u8], bits: &mut [u8])
    requires { length bits.old ≡ 8 * length octets.now }
    ensures { bits.new ≡ unpacked octets.now }
{
    for (o, octet) in octets.iter().enumerate() {
        bits::put_digits(u64::from(*octet), &mut bits[8 * o..8 * o + 8]);
    }
}
