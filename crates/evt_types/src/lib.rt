// The types that every crate here shares, and what all encodings have in common: the public word
// layouts of EVT 2.0 and EVT 3.0 (specs/Layout.antt), fields of a word, the clock that counts loops
// (specs/Clock.antt), the events of a word (specs/Event.antt), triggers (specs/Trigger.antt), and of every
// refusal the number and the values (specs/Told.antt) and what it prints (specs/Text.antt).

#![tactic(auto)]

ghost use Rattle.std.specs.Prelude.{◌≡◌};
ghost use Rattle.evt_types.specs.Num.{encoding_number};
ghost use Rattle.evt_types.specs.Told.{encoding_numbered};
ghost use Rattle.evt_types.specs.Told.{told};

use std::error::Error;
use std::fmt;

// An event: column, row, time in microseconds, polarity 0 or 1.
#[derive(Clone, Copy, Debug, PartialEq, Eq)]
pub struct RawEvent {
    pub x: u16,
    pub y: u16,
    pub t: i64,
    pub p: u8,
}

// A pulse on the camera's trigger input: time in microseconds, channel, value 0 or 1.
#[derive(Clone, Copy, Debug, PartialEq, Eq)]
pub struct RawTrigger {
    pub t: i64,
    pub id: u8,
    pub value: u8,
}

#[derive(Clone, Copy, Debug, PartialEq, Eq)]
pub enum Encoding {
    Evt2,
    Evt21,
    Evt3,
}

// An encoding's number.
impl From<Encoding> for u32 {
    ghost from_gives = { λ e n. n ≡ encoding_number e };

    fn from(encoding: Encoding) -> u32 {
        match encoding {
            Encoding::Evt2 => 2,
            Encoding::Evt21 => 21,
            Encoding::Evt3 => 3,
        }
    }
}

// The encoding of a number, back.
impl TryFrom<u32> for Encoding {
    type Error = Refusal;

    ghost try_from_gives = { λ n r. r ≡ encoding_numbered n };

    fn try_from(number: u32) -> Result<Encoding, Refusal> {
        match number {
            2 => Ok(Encoding::Evt2),
            21 => Ok(Encoding::Evt21),
            3 => Ok(Encoding::Evt3),
            _ => Err(Refusal::UnknownEncoding),
        }
    }
}

// The name that the writer and `decode_words` have for it in the Rust.
pub type EvtVersion = Encoding;

// A sensor's width and height.
#[derive(Clone, Copy, Debug, PartialEq, Eq)]
pub struct SensorSize {
    pub width: usize,
    pub height: usize,
}

// More bytes than this aren't read (4).
pub const MOST_BYTES: usize = 1073741824;

// Why a call is refused: a case for each number of the table, with the count that it tells.
#[derive(Clone, Copy, Debug, PartialEq, Eq)]
pub enum Refusal {
    InvalidSensorSize,
    UnknownEncoding,
    HeaderNotAscii,
    TooLong,
    ColumnsTooShort(usize),
    TimeOrder,
    EventOutOfRange,
    InvalidSpacing,
    TooFewRecords(usize),
    StateOutOfRange,
    OutputTooShort(usize),
    ColumnLengths,
    TriggerColumnsTooShort(usize),
}

// A refusal's number in the table.
impl From<Refusal> for u32 {
    ghost from_gives = { λ r n. n ≡ (told r).number };

    fn from(refusal: Refusal) -> u32 {
        match refusal {
            Refusal::InvalidSensorSize => 1,
            Refusal::UnknownEncoding => 2,
            Refusal::HeaderNotAscii => 3,
            Refusal::TooLong => 4,
            Refusal::ColumnsTooShort(_) => 5,
            Refusal::TimeOrder => 6,
            Refusal::EventOutOfRange => 7,
            Refusal::InvalidSpacing => 8,
            Refusal::TooFewRecords(_) => 9,
            Refusal::StateOutOfRange => 10,
            Refusal::OutputTooShort(_) => 11,
            Refusal::ColumnLengths => 12,
            Refusal::TriggerColumnsTooShort(_) => 13,
        }
    }
}

// What it says, with the count that it tells.
impl fmt::Display for Refusal {
    ghost use Rattle.std.specs.Prelude.{Some};
    ghost use Rattle.evt_types.specs.Text.{refusal_text};

    ghost output = { λ r. Some (refusal_text r) };

    fn fmt<W: fmt::Write>(&self, f: &mut fmt::Formatter<W>) -> fmt::Result {
        match self {
            Refusal::InvalidSensorSize => write!(f, "width or height 0, or no size and no event"),
            Refusal::UnknownEncoding => write!(f, "no known encoding"),
            Refusal::HeaderNotAscii => write!(f, "a header byte above 127"),
            Refusal::TooLong => write!(
                f,
                "over 2^30 bytes read, or over 2^28 events in one append"
            ),
            Refusal::ColumnsTooShort(n) => write!(
                f,
                "{n} events, more than the shortest column holds"
            ),
            Refusal::TimeOrder => write!(f, "a time below the one before"),
            Refusal::EventOutOfRange => write!(f, "an event that its encoding cannot say"),
            Refusal::InvalidSpacing => write!(
                f,
                "a spacing that is no multiple of 4 (EVT2.1: of 8) from 4 to 4194304"
            ),
            Refusal::TooFewRecords(n) => write!(f, "{n} checkpoints, more than lent records"),
            Refusal::StateOutOfRange => write!(f, "an index, a writer or a decoder out of range"),
            Refusal::OutputTooShort(n) => write!(
                f,
                "an output shorter than the {n} bytes to write"
            ),
            Refusal::ColumnLengths => write!(f, "appended columns that differ in length"),
            Refusal::TriggerColumnsTooShort(n) => write!(
                f,
                "{n} triggers, more than their shortest column holds"
            ),
        }
    }
}

impl Error for Refusal {}

pub mod clock;
pub mod fields;
pub mod num;
pub mod trigger;
pub mod vector;
pub mod words;

pub use vector::{Decoded, EventVector, Step};
