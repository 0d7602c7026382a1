// What is appended: events 0 to 6 by the first append, 7 to 15 by the third; the second is refused,
// since its times fall. They have a repeat, runs that become vectors of one and of two words in EVT3
// and in EVT2.1, several rows, and times on both sides of a multiple of 4,096. Of the later events the
// third append brings number 7 alone.
ghost use Rattle.std.specs.Prelude.{◌≡◌, ◌≤◌, length, take};
ghost use Rattle.demo_handover.specs.Given.{given_xs, given_ys, given_ts, given_ps, word_ends, ends_of, up_to, earlier_than};

use prophesee_raw::Encoding;

// Later events are just so much later, 231 times 64 in EVT2 or 37 times 4,096 in EVT3, that the first
// time word begins with hex 25, `%`; where the words end stays the same. A long show, of EVT3, passes
// one of its loops, 2^24 microseconds, before number 7, and two before number 14.
#[derive(Clone, Copy)]
pub enum When {
    Early,
    Later2,
    Later3,
    Long,
}

// What is written, and read back: words alone, or behind a header.
#[derive(Clone, Copy)]
pub struct Case {
    pub encoding: Encoding,
    pub headed: bool,
    pub when: When,
}

// How many of the events are appended.
pub fn total(when: When) -> usize
    ensures { result ≤ 16 }
{
    match when {
        When::Early => 16,
        When::Later2 => 8,
        When::Later3 => 8,
        When::Long => 16,
    }
}

// A time that parts the events.
pub fn middle(when: When) -> i64 {
    match when {
        When::Early => 4100,
        When::Later2 => 18879,
        When::Later3 => 155647,
        When::Long => 16781316,
    }
}

// Each `ensures` keeps the array itself out of its callers' proofs.
pub fn columns() -> [u16; 16]
    ensures { (result ≡ given_xs) × (16 ≡ length result) }
{
    [
        10, 10, 20, 21, 23, 31, 31, 3, 120, 123, 131, 132, 139, 139, 5, 2047,
    ]
}

pub fn rows() -> [u16; 16]
    ensures { (result ≡ given_ys) × (16 ≡ length result) }
{
    [7, 7, 7, 7, 7, 7, 6, 6, 9, 9, 9, 9, 9, 9, 9, 2047]
}

const EARLY: [i64; 16] = [
    4030, 4030, 4095, 4095, 4095, 4095, 4095, 4096, 4100, 4100, 4100, 4100, 4100, 4100, 4101, 8200,
];

const LATER2: [i64; 16] = [
    18814, 18814, 18879, 18879, 18879, 18879, 18879, 18880, 18884, 18884, 18884, 18884, 18884,
    18884, 18885, 22984,
];

const LATER3: [i64; 16] = [
    155582, 155582, 155647, 155647, 155647, 155647, 155647, 155648, 155652, 155652, 155652, 155652,
    155652, 155652, 155653, 159752,
];

const LONG: [i64; 16] = [
    4030, 4030, 4095, 4095, 4095, 4095, 4095, 16781312, 16781316, 16781316, 16781316, 16781316,
    16781316, 16781316, 50335749, 50339848,
];

pub fn times(when: When) -> [i64; 16]
    ensures { (result ≡ given_ts when) × (16 ≡ length result) }
{
    match when {
        When::Early => EARLY,
        When::Later2 => LATER2,
        When::Later3 => LATER3,
        When::Long => LONG,
    }
}

pub fn polarities() -> [u8; 16]
    ensures { (result ≡ given_ps) × (16 ≡ length result) }
{
    [1, 1, 0, 0, 0, 0, 0, 1, 1, 1, 1, 1, 1, 1, 0, 1]
}

// The least spacing of an index.
pub fn spacing(encoding: Encoding) -> usize
    ensures { result ≤ 8 }
{
    match encoding {
        Encoding::Evt2 => 4,
        Encoding::Evt21 => 8,
        Encoding::Evt3 => 4,
    }
}

// Where the event word of each event ends in the stream, counted from the body's start, if no loop is
// passed.
fn word_ends(encoding: Encoding) -> [usize; 16]
    ensures { (result ≡ word_ends encoding) × (16 ≡ length result) }
{
    match encoding {
        Encoding::Evt2 => [
            8, 12, 20, 24, 28, 32, 36, 44, 48, 52, 56, 60, 64, 68, 72, 80,
        ],
        Encoding::Evt21 => [
            16, 24, 40, 40, 40, 40, 48, 64, 72, 72, 80, 80, 80, 88, 96, 112,
        ],
        Encoding::Evt3 => [
            8, 10, 16, 16, 16, 16, 20, 24, 32, 32, 32, 34, 34, 36, 40, 48,
        ],
    }
}

// The same for any show: in a long one the words of the loops come in between.
fn ends(when: When, encoding: Encoding) -> [usize; 16]
    ensures { (result ≡ ends_of when encoding) × (16 ≡ length result) }
{
    match when {
        When::Early => word_ends(encoding),
        When::Later2 => word_ends(encoding),
        When::Later3 => word_ends(encoding),
        When::Long => [
            8, 10, 16, 16, 16, 16, 20, 28, 36, 36, 36, 38, 38, 40, 54, 62,
        ],
    }
}

// How many events have their event word whole before a cut of the body.
pub fn whole_before(when: When, encoding: Encoding, cut: usize) -> usize
    ensures { (result ≡ up_to cut (ends_of when encoding)) × (result ≤ 16) }
{
    ends(when, encoding)
        .iter()
        .filter(|&&end| end <= cut)
        .count()
}

// How many of the first `count` events are before a time.
pub fn earlier(when: When, count: usize, t: i64) -> usize
    requires { count ≤ 16 }
    ensures { (result ≡ earlier_than t (take count (given_ts when))) × (result ≤ count) }
{
    times(when)[..count].iter().filter(|&&u| u < t).count()
}
