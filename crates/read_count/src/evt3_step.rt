// EVT3 for counting loops: a step by tables, without branches but for type 8. It agrees with the
// decoder's own step: specs/Evt3Step.antt says in what.
ghost use Rattle.std.specs.Prelude.{◌≡◌, cond};
ghost use Rattle.evt3_decoder.specs.Evt3.{Sane3, Slim, slimmed};
ghost use Rattle.read_count.specs.Evt3Step.{decoder_of, span_table, vect_table, AgreesWithStep, started_step};

use evt_types::fields::bits;
use evt_types::num::saturate;
use evt3_decoder::WideDecoder;

// The decoder inside a counting loop. Its polarity is bit 11 of `base_word`, the last word of type 3: a
// bool of its own takes registers that the loop hasn't got.
#[derive(Clone, Copy)]
pub struct CountingDecoder {
    pub initialised: bool,
    pub time_base: u64,
    pub time: u64,
    pub y: u64,
    pub base_x: u64,
    pub base_word: u64,
    pub high_loops: u64,
}

// The decoder after a word, and the base column and mask of the word's events. Where there are any,
// their row and time are the decoder's.
#[derive(Clone, Copy)]
pub struct CountingStep {
    pub next: CountingDecoder,
    pub x: u64,
    pub mask: u64,
}

// By how many columns a word of each type moves the base, and which of its bits are events.
const SPANS: [u64; 16] = [0, 0, 0, 0, 12, 8, 0, 0, 0, 0, 0, 0, 0, 0, 0, 0];

const VECTS: [u64; 16] = [0, 0, 0, 0, 4095, 255, 0, 0, 0, 0, 0, 0, 0, 0, 0, 0];

pub fn span_table() -> [u64; 16]
    ensures { result ≡ span_table }
{
    SPANS
}

pub fn vect_table() -> [u64; 16]
    ensures { result ≡ vect_table }
{
    VECTS
}

pub fn counting(d: WideDecoder) -> CountingDecoder
    ensures { decoder_of result ≡ d }
{
    CountingDecoder {
        initialised: d.initialised,
        time_base: d.time_base,
        time: d.time,
        y: d.y,
        base_x: d.base_x,
        base_word: choose(d.polarity, 2048, 0),
        high_loops: d.high_loops,
    }
}

impl CountingDecoder {
    pub fn wide(self) -> WideDecoder
        ensures { result ≡ decoder_of self }
    {
        let sign = bits(self.base_word, 11, 1);
        WideDecoder {
            initialised: self.initialised,
            time_base: self.time_base,
            time: self.time,
            y: self.y,
            base_x: self.base_x,
            polarity: sign == 1,
            high_loops: self.high_loops,
        }
    }

    // One word.
    pub fn table_step(self, word: u64, spans: &[u64; 16], vects: &[u64; 16]) -> CountingStep
        requires sane { Sane3 (decoder_of self) }
        requires slim { Slim (decoder_of self) }
        requires spans { spans.now ≡ span_table }
        requires vects { vects.now ≡ vect_table }
        ensures { AgreesWithStep (slimmed (decoder_of self)) word result }
    {
        if self.initialised && bits(word, 12, 4) != 8 {
            return self.started_step(word, spans, vects);
        }
        let step = self.wide().advance(word);
        let next = step.next;
        CountingStep {
            next: counting(next),
            x: 0,
            mask: 0,
        }
    }

    // A word of another type than 8 to a started decoder.
    fn started_step(self, word: u64, spans: &[u64; 16], vects: &[u64; 16]) -> CountingStep
        requires sane { Sane3 (decoder_of self) }
        requires slim { Slim (decoder_of self) }
        requires spans { spans.now ≡ span_table }
        requires vects { vects.now ≡ vect_table }
        ensures { result ≡ started_step self word }
    {
        let kind = bits(word, 12, 4);
        let x = bits(word, 0, 11);
        let base = kind == 3;
        let single = kind == 2;
        let at = kind as usize;
        let moved = saturate(self.base_x + spans[at]);
        let several = word & vects[at];
        CountingStep {
            next: CountingDecoder {
                initialised: self.initialised,
                time_base: self.time_base,
                time: choose(kind == 6, self.time_base + bits(word, 0, 12), self.time),
                y: choose(kind == 0, x, self.y),
                base_x: choose(base, x, moved),
                base_word: choose(base, word, self.base_word),
                high_loops: self.high_loops,
            },
            x: choose(single, x, self.base_x),
            mask: choose(single, 1, several),
        }
    }
}

// One of two, without a branch.
fn choose(t: bool, a: u64, b: u64) -> u64
    ensures { result ≡ cond t a b }
{
    if t { a } else { b }
}
