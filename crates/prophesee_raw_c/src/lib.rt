// The library for C and for Rust programs that link it: structs of numbers in, structs of numbers
// out, and lent buffers. No exported function has a `requires`; a buffer that isn't there, or two that
// overlap, lie outside of any contract (include/prophesee_raw.h). What each promises stands in the
// specs of the crates `c_values`, `c_decoder`, `c_triggers`, `c_index`, `c_writer` and `c_resume`, over
// the definitions that the library's own contracts cite.

#![tactic(auto)]

ghost use Rattle.std.specs.Prelude.{◌≡◌};

mod opening;
mod reading;
mod resume;
mod slices;
mod triggers;
mod words;
mod writer;

// The number of this interface.
#[unsafe(no_mangle)]
pub extern "C" fn prophesee_version() -> u32
    ensures { result ≡ 1 }
{
    1
}
