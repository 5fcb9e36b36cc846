// What the kit says of its words and of the refusals, as README.md has them.

// Each word, and its line: what stands after it, and what it answers.
pub static WORDS: [(&[u8], &[u8]); 26] = [
    (b"speech", b"speech D: the 456 coded bits of the 260 bits D"),
    (
        b"control",
        b"control D: the 456 coded bits of the 184 bits D",
    ),
    (
        b"sacch",
        b"sacch D: the 464 bits of four bursts that carry the 184 bits D",
    ),
    (
        b"access",
        b"access ID D: the 36 bits of an access burst that carries the 8 bits D, for the identity ID",
    ),
    (
        b"sch",
        b"sch D: the 78 bits of SCH that carry the 25 bits D",
    ),
    (
        b"efr",
        b"efr D: the 456 coded bits of the 244 bits D of enhanced full rate",
    ),
    (
        b"speech?",
        b"speech? R: of 456 received bits, 2 for a missing one, COUNT and the 260 bits of the nearest block; it disagrees in COUNT places",
    ),
    (
        b"control?",
        b"control? R: of 456 received bits, 2 for a missing one, COUNT and the 184 bits of the nearest block",
    ),
    (
        b"sacch?",
        b"sacch? R: of 464 received bits, 2 for a missing one, COUNT and the 184 bits of the nearest block",
    ),
    (
        b"access?",
        b"access? ID R: of 36 received bits, 2 for a missing one, COUNT and the 8 bits of the nearest block, as the bench with the identity ID hears it",
    ),
    (
        b"sch?",
        b"sch? R: of 78 received bits, 2 for a missing one, COUNT and the 25 bits of the nearest block",
    ),
    (
        b"efr?",
        b"efr? R: of 456 received bits, 2 for a missing one, COUNT and the 244 bits of enhanced full rate of the nearest block",
    ),
    (
        b"whose",
        b"whose R: of 36 received bits, 2 for a missing one, IDENTITY and COUNT: the one identity under which access? accepts them, and its count",
    ),
    (
        b"mark",
        b"mark CHANNEL R U COUNT: yes, if no block of the speech, control, access or sch bits R, 2 for a missing one, is nearer than the block U, which disagrees in COUNT places; or no, and what is wrong first: length, tail, count or fewest",
    ),
    (
        b"send",
        b"send D: the next four bursts of the stream, 464 bits, in which the block D begins: 260 bits are speech, 184 FACCH",
    ),
    (b"end", b"end: the last four bursts of the stream, 464 bits"),
    (
        b"take",
        b"take B E: of the 116 bits E of burst B, 2 for a missing one: waiting, or the block N that it ends: speech N COUNT BITS, or facch N COUNT BITS",
    ),
    (
        b"totals",
        b"totals: four numbers of all that is taken: good speech blocks, good FACCH blocks, blocks refused with 8 or 9, and the summed counts of the good ones",
    ),
    (
        b"enrol",
        b"enrol ID: PLACE, 0 to 29: the smallest free place of the hub, at which the identity ID then stands",
    ),
    (b"remove", b"remove PLACE: removed; the place is free again"),
    (
        b"hear",
        b"hear R: of 36 received bits, 2 for a missing one, PLACE, COUNT and the 8 bits of the nearest block, for the place whose identity accepts them",
    ),
    (
        b"fresh",
        b"fresh: fresh; both streams and the hub begin anew",
    ),
    (
        b"lend",
        b"lend N B LINE: what LINE answers when it is lent N bytes, 0 to 600, each the digit B; in the place of its bits stands the whole buffer, or -",
    ),
    (
        b"trellis",
        b"trellis R: of up to 456 received bits, 2 for a missing one, by state: the fewest disagreements of any bits that end there, or 65535; R may be left out",
    ),
    (
        b"help",
        b"help WORD: what stands after WORD, and what it answers; help alone lists the words",
    ),
    (b"why", b"why N: refusal N in words"),
];

// The reason of a refusal; none for a number that is not told. 11 to 13 are of requests that are not built yet.
pub fn reason(number: u16) -> Option<&'static [u8]> {
    match number {
        1 => Some(b"a buffer has the wrong length"),
        2 => Some(b"a bit is neither 0 nor 1, nor 2 for missing on reception"),
        3 => Some(b"the identity is over 63"),
        4 => Some(b"the burst is not the next one"),
        5 => Some(b"the stream is full: 16383 blocks are sent, or burst 65535 is taken"),
        6 => Some(b"nothing was sent before the end"),
        7 => Some(b"the stream has ended"),
        8 => Some(b"the parity is bad"),
        9 => Some(b"as many flags are 1 as are 0, and the parity is bad as FACCH and as speech"),
        10 => Some(b"the parity of enhanced full rate is good and its CRC is bad"),
        14 => Some(b"the identity stands at a place of the hub already"),
        15 => Some(b"all 30 places of the hub are in use"),
        16 => Some(b"the place is empty, or over 29"),
        17 => Some(b"no identity at the hub accepts the burst"),
        _ => None,
    }
}
