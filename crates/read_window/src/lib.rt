// The window of a pass: which of a word's events are handed over, by number and by time, among those
// inside the sensor, and what is noted of them. specs/Window.antt has the window as the rule of
// selection reads it, specs/Trim.antt what is left of a word, specs/Extent.antt what is noted.

// Events inside width x height are numbered. Handed over are those with n0 <= number < n1 and
// t0 <= t < t1. A pass stops after the first word at which the next number reaches n1, or the
// decoder is started and its time reaches t1.

#![tactic(auto)]

#[derive(Clone, Copy)]
pub struct Window {
    pub width: u64,
    pub height: u64,
    pub n0: u64,
    pub n1: u64,
    pub t0: u64,
    pub t1: u64,
}

pub mod extent;
pub mod trim;
