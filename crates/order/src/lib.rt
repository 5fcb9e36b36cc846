// Tables of places, counted from 1 as the documents count them and printed in rows of five: bits are fetched in the order of a table, and put back.
#![tactic(auto)]

ghost use Rattle.std.specs.Prelude.{◌≡◌, ◌*◌, ◌≤◌, length};
ghost use Rattle.order.specs.Order.{Permutation, Within, entries, fetched, put_back};

// The bits of w in the table's order. By rows, since flat tables, in one loop, were slower (docs/SPEED.md: efr-encode 4,006 instructions for 3,806).
pub fn fetch(table: &[[u16; 5]], w: &[u8], d: &mut [u8])
    requires { (Within (length w.now) (entries table.now)) × (length w.now ≤ 65535) × (length d.old ≡ 5 * length table.now) }
    ensures { d.new ≡ fetched (entries table.now) w.now }
{
    for (row, places) in table.iter().enumerate() {
        for (x, place) in places.iter().enumerate() {
            d[5 * row + x] = w[usize::from(*place) - 1];
        }
    }
}

// The bits d, each at the place that it was fetched from.
pub fn put_back(table: &[[u16; 5]], d: &[u8], w: &mut [u8])
    requires { (Permutation (5 * length table.now) (entries table.now)) × (length w.old ≤ 65535) × (length w.old ≡ 5 * length table.now) × (length d.now ≡ 5 * length table.now) }
    ensures { w.new ≡ put_back (entries table.now) d.now }
{
    for (row, places) in table.iter().enumerate() {
        for (x, place) in places.iter().enumerate() {
            w[usize::from(*place) - 1] = d[5 * row + x];
        }
    }
}
