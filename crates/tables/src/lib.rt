// The tables of the documents, counted from 1, in rows of five. Those of enhanced full rate (02, M-103): s and w; and full rate's (02, M-113): D1 to D260.
#![tactic(auto)]

mod full_rate;

ghost use Rattle.std.specs.Prelude.{◌≡◌};
ghost use Rattle.tables.specs.laws.Tables.{important_rows, ordering_rows};

pub use full_rate::importance;

// The 65 most important bits of s, in the order of the CRC (000, 3.1.1.1): two rows are one of 000's.
const IMPORTANT: [[u16; 5]; 13] = [
    [39, 40, 41, 42, 43],
    [44, 48, 87, 45, 2],
    [3, 8, 10, 18, 19],
    [24, 46, 47, 142, 143],
    [144, 145, 146, 147, 92],
    [93, 195, 196, 98, 137],
    [148, 94, 197, 149, 150],
    [95, 198, 4, 5, 11],
    [12, 16, 9, 6, 7],
    [13, 17, 20, 96, 199],
    [1, 14, 15, 21, 25],
    [26, 28, 151, 201, 190],
    [240, 88, 138, 191, 241],
];

// The bits of w in the order of d (000, the table that orders the enhanced full rate bits).
const ORDERING: [[u16; 5]; 52] = [
    [39, 40, 41, 42, 43],
    [44, 146, 147, 148, 149],
    [150, 151, 94, 95, 201],
    [202, 48, 89, 100, 141],
    [45, 152, 96, 203, 2],
    [3, 8, 10, 18, 19],
    [24, 46, 47, 153, 154],
    [97, 204, 4, 5, 11],
    [12, 16, 9, 6, 7],
    [13, 17, 20, 98, 205],
    [1, 14, 15, 21, 25],
    [26, 28, 155, 207, 196],
    [248, 90, 142, 197, 249],
    [253, 254, 255, 256, 257],
    [258, 259, 260, 49, 101],
    [156, 208, 22, 23, 27],
    [29, 52, 56, 60, 64],
    [68, 104, 108, 112, 116],
    [120, 159, 163, 167, 171],
    [175, 211, 215, 219, 223],
    [227, 91, 143, 198, 250],
    [50, 102, 157, 209, 30],
    [31, 32, 33, 34, 35],
    [36, 99, 206, 53, 57],
    [61, 65, 69, 105, 109],
    [113, 117, 121, 160, 164],
    [168, 172, 176, 212, 216],
    [220, 224, 228, 54, 58],
    [62, 66, 106, 110, 114],
    [118, 161, 165, 169, 173],
    [213, 221, 225, 92, 144],
    [199, 251, 51, 103, 158],
    [210, 93, 145, 200, 252],
    [55, 59, 63, 67, 107],
    [111, 115, 119, 162, 166],
    [170, 174, 214, 222, 226],
    [37, 38, 70, 72, 73],
    [122, 124, 125, 177, 179],
    [180, 229, 231, 232, 217],
    [218, 71, 123, 178, 230],
    [74, 77, 80, 83, 86],
    [126, 129, 132, 135, 138],
    [181, 184, 187, 190, 193],
    [233, 236, 239, 242, 245],
    [75, 78, 81, 84, 87],
    [127, 130, 133, 136, 139],
    [182, 185, 188, 191, 194],
    [234, 237, 240, 243, 246],
    [76, 79, 82, 85, 88],
    [128, 131, 134, 137, 140],
    [183, 186, 189, 192, 195],
    [235, 238, 241, 244, 247],
];

// Three functions that differ in a table: each promises the table that its definition has, so one for all would say less of each.
// Each table whole, made in a function of its own: so its rows stay out of the proof of the loop that reads them.
pub fn important() -> [[u16; 5]; 13]
    ensures { result ≡ important_rows }
{
    IMPORTANT
}

pub fn ordering() -> [[u16; 5]; 52]
    ensures { result ≡ ordering_rows }
{
    ORDERING
}
