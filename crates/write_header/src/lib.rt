// The header that a writer sends before its first words: four lines, stored as far as the buffer
// reaches. `put_due` is proved to store the header's text where one is due, and to answer its
// length. specs/Header.antt says which text that is.

#![tactic(auto)]

ghost use Rattle.std.specs.Prelude.{◌≡◌, cond, [], length};
ghost use Rattle.std.proofs.lemmas.List.Edits.{sets};
ghost use Rattle.write_text.specs.Stored.{Stored};
ghost use Rattle.write_header.specs.Header.{format_line, header_text};

use evt_types::Encoding;
use write_text::{put_decimal, put_text};

fn put_format(version: Encoding, out: &mut [u8]) -> usize
    ensures { Stored 15 out.old 0 (format_line version) result out.new }
{
    match version {
        Encoding::Evt2 => put_text(&mut *out, 0, b"% format EVT2\n"),
        Encoding::Evt21 => put_text(&mut *out, 0, b"% format EVT21\n"),
        Encoding::Evt3 => put_text(&mut *out, 0, b"% format EVT3\n"),
    }
}

// The header, from the front of `out`.
fn put_header(version: Encoding, width: usize, height: usize, out: &mut [u8]) -> usize
    ensures ends { result ≡ length (header_text version width height) }
    ensures stores { out.new ≡ sets out.old 0 (header_text version width height) }
{
    let a = put_format(version, &mut *out);
    let b = put_text(&mut *out, a, b"% geometry ");
    let c = put_decimal(&mut *out, b, width as u64);
    let d = put_text(&mut *out, c, b"x");
    let e = put_decimal(&mut *out, d, height as u64);
    put_text(&mut *out, e, b"\n% generator eventcv\n% end\n")
}

// The header, where one is due.
pub fn put_due(due: bool, version: Encoding, width: usize, height: usize, out: &mut [u8]) -> usize
    ensures ends { result ≡ length (cond due (header_text version width height) []) }
    ensures stores { out.new ≡ sets out.old 0 (cond due (header_text version width height) []) }
{
    if due {
        put_header(version, width, height, &mut *out)
    } else {
        0
    }
}
