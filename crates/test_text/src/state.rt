// A decoder's state as text: `2:started,high,time,loops`, the same with 21 for 2, or
// `3:started,base,time,row,basex,pol,loops`.
use crate::text;
use evt_codec::Codec;
use evt2_decoder::Evt2Decoder;
use evt3_decoder::Decoder;
use std::io;
use std::io::Write;

pub fn read(s: &[u8]) -> Codec {
    let [encoding, initialised, high, time, loops] = text::numbers::<5>(s);
    let two = Evt2Decoder {
        initialised: initialised == 1,
        time_high: high,
        time,
        high_loops: loops,
    };
    match encoding {
        2 => Codec::Evt2(two),
        21 => Codec::Evt21(evt21_decoder::of_evt2(two)),
        _ => Codec::Evt3(read3(s)),
    }
}

fn read3(s: &[u8]) -> Decoder {
    let [
        _,
        initialised,
        time_base,
        time,
        row,
        column,
        polarity,
        high_loops,
    ] = text::numbers::<8>(s);
    Decoder {
        initialised: initialised == 1,
        time_base,
        time,
        y: text::short(row),
        base_x: text::short(column),
        polarity: polarity == 1,
        high_loops,
    }
}

pub fn show(stdout: &mut impl Write, codec: Codec) -> io::Result<()> {
    match codec {
        Codec::Evt2(d) => show2(stdout, 2, d),
        Codec::Evt21(d) => show2(stdout, 21, d.evt2()),
        Codec::Evt3(d) => show3(stdout, d),
    }
}

fn show2(stdout: &mut impl Write, encoding: u32, d: Evt2Decoder) -> io::Result<()> {
    let initialised = u8::from(d.initialised);
    write!(
        stdout,
        "{encoding}:{initialised},{},{},{}",
        d.time_high, d.time, d.high_loops
    )
}

fn show3(stdout: &mut impl Write, d: Decoder) -> io::Result<()> {
    let initialised = u8::from(d.initialised);
    let polarity = u8::from(d.polarity);
    write!(
        stdout,
        "3:{initialised},{},{},{},{},{polarity},{}",
        d.time_base, d.time, d.y, d.base_x, d.high_loops
    )
}
