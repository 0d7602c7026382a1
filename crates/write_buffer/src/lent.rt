// Four columns that a caller lends, as a pass takes them: of one length, and with no time below 0.
ghost use Rattle.std.specs.Prelude.{◌≡◌, ◌<◌, pos, length, get_or};
ghost use Rattle.evt_types.specs.Num.{natural};
ghost use Rattle.write_buffer.specs.Columns.{Sized, Whole};

#[derive(Clone, Copy)]
pub struct Columns<'a> {
    pub xs: &'a [u16],
    pub ys: &'a [u16],
    pub ts: &'a [i64],
    pub ps: &'a [u8],
    ghost sized: { Sized xs.now ys.now ts.now ps.now },
    ghost whole: { Whole ts.now },
}

impl Columns<'_> {
    // The time of an event.
    pub fn time(self, i: usize) -> u64
        requires { i < length self.xs.now }
        ensures { result ≡ natural (get_or self.entry.ts.now i (pos 0)) }
    {
        self.ts[i] as u64
    }
}
