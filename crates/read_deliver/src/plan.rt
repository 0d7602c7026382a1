// What is decoded for a window, settled by value before a column is lent. A window of everything goes
// to the plain loops as it is; of another, the words before its first time or number are passed over,
// and one of times alone goes to the plain loops too, up to its last, unless a time steps back among
// them.
// specs/Plan.antt says why nothing is lost.
ghost use Rattle.std.specs.Prelude.{◌≡◌, ◌&&◌, length};
ghost use Rattle.evt_codec.specs.Codec.{in_range_c};
ghost use Rattle.read_fill.specs.Decode.{Fitting};
ghost use Rattle.read_select.specs.Pass.{Ready};
ghost use Rattle.read_deliver.specs.Plan.{is_timed, is_whole, is_numbered, Timed, Numbered, Planned};

use evt_codec::Codec;
use read_select::Window;

// The bytes from `from` to before `to`, from this decoder, where the next event has this number: all
// their events inside the sensor (`plain`), or what the window leaves of them.
#[derive(Clone, Copy)]
pub struct Plan {
    pub plain: bool,
    pub from: usize,
    pub to: usize,
    pub codec: Codec,
    pub number: u64,
}

// Without a part to pass over: all bytes, under the window.
pub fn plan_window(bytes: &[u8], codec: Codec, window: Window, number: u64) -> Plan
    requires { Ready codec number (length bytes.now) }
    ensures { Planned window number codec bytes.now result }
{
    if is_timed(window) {
        return plan_time(bytes, codec, window, number);
    }
    if is_numbered(window, number) {
        return plan_number(bytes, codec, window, number);
    }
    Plan {
        plain: false,
        from: 0,
        to: bytes.len(),
        codec: codec,
        number: number,
    }
}

// From the window's first time on.
fn plan_time(bytes: &[u8], codec: Codec, window: Window, number: u64) -> Plan
    requires ready { Ready codec number (length bytes.now) }
    requires timed { Timed window }
    ensures { Planned window number codec bytes.now result }
{
    let s = read_seek::seek(bytes, codec, window.t0);
    let at = s.at;
    let there = s.codec;
    let e = read_seek::span(&bytes[at..], there, window.t0, window.t1);
    if e.stray {
        return Plan {
            plain: false,
            from: at,
            to: bytes.len(),
            codec: there,
            number: number,
        };
    }
    Plan {
        plain: true,
        from: at,
        to: at + e.at,
        codec: there,
        number: number,
    }
}

// From the window's first number on.
fn plan_number(bytes: &[u8], codec: Codec, window: Window, number: u64) -> Plan
    requires ready { Ready codec number (length bytes.now) }
    requires numbered { Numbered window number }
    ensures { Planned window number codec bytes.now result }
{
    let most = (window.n0 - number) as usize;
    let p = read_count::count_to(bytes, codec, window.width, window.height, most);
    let there = p.codec;
    let next = number + p.count as u64;
    Plan {
        plain: false,
        from: p.at,
        to: bytes.len(),
        codec: there,
        number: next,
    }
}

// Whether a window has every number, and is not empty in time.
fn is_timed(window: Window) -> bool
    ensures { result ≡ is_timed window }
{
    if window.n0 == 0 {
        if window.n1 == 18446744073709551615 {
            return window.t0 < window.t1;
        }
    }
    false
}

// Whether a window has everything. A decoder out of range, which the callers refuse, goes under the
// window like any other.
pub fn is_everything(window: Window, codec: Codec) -> bool
    ensures { (result ≡ (is_whole window && in_range_c codec)) × Fitting codec }
{
    let fits = read_fill::in_range(codec);
    if is_whole(window) { fits } else { false }
}

// Whether a window has every number and every time.
fn is_whole(window: Window) -> bool
    ensures { result ≡ is_whole window }
{
    if window.t0 == 0 {
        if 9223372036854775808 <= window.t1 {
            return is_timed(window);
        }
    }
    false
}

// Whether a window has every time, and its first number lies ahead. No index counts more than 2^33.
fn is_numbered(window: Window, number: u64) -> bool
    ensures { result ≡ is_numbered window number }
{
    if window.t1 < 9223372036854775808 {
        return false;
    }
    if 8589934592 < window.n0 {
        return false;
    }
    number < window.n0
}
