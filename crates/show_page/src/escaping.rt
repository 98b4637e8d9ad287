//! Texts that stand in a page as they are: what a browser would read as a mark is written by its name.
ghost use Rattle.std.specs.Prelude.{◌≡◌};
ghost use Rattle.sml_writer.specs.Tells.{Tells};
ghost use Rattle.show_page.specs.Escapes as text;

use sml_text::Sink;
use sml_writer::Out;

// Writes a byte as it stands in a page.
fn tell_escaped_byte<S: Sink>(out: &mut Out<'_, S>, byte: u8)
    ensures { Tells S.contents S.has_refused out.old out.new (text.escaped_byte byte) }
{
    if byte == b'&' {
        out.say(b"&amp;");
    } else if byte == b'<' {
        out.say(b"&lt;");
    } else if byte == b'>' {
        out.say(b"&gt;");
    } else {
        out.say(&[byte]);
    }
}

// Writes bytes as they stand in a page.
pub(crate) fn tell_escaped<S: Sink>(out: &mut Out<'_, S>, bytes: &[u8])
    ensures { Tells S.contents S.has_refused out.old out.new (text.escaped bytes.now) }
{
    for byte in bytes {
        tell_escaped_byte(out, *byte);
    }
}
