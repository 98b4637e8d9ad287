//! The elements of a picture. Each function writes one unless a write before it failed, and takes no memory.

use sml_text::Sink;
use sml_writer::Out;

/// A place in a picture, from its upper left corner.
#[derive(Clone, Copy)]
pub(crate) struct Point {
    pub(crate) x: u64,
    pub(crate) y: u64,
}

/// A number of an element, with its name before it.
pub(crate) fn tell_number<W: Sink>(out: &mut Out<'_, W>, name: &[u8], number: u64) {
    out.say(b" ");
    out.say(name);
    out.say(b"=\"");
    out.number(number);
    out.say(b"\"");
}

// An element with its class, up to its numbers.
fn tell_front<W: Sink>(out: &mut Out<'_, W>, element: &[u8], class: &[u8]) {
    out.say(b"<");
    out.say(element);
    out.say(b" class=\"");
    out.say(class);
    out.say(b"\"");
}

/// A straight line.
pub(crate) fn tell_line<W: Sink>(out: &mut Out<'_, W>, class: &[u8], from: Point, to: Point) {
    tell_front(out, b"line", class);
    tell_ends(out, from, to);
    out.say(b"/>\n");
}

// The ends of a line.
fn tell_ends<W: Sink>(out: &mut Out<'_, W>, from: Point, to: Point) {
    tell_number(out, b"x1", from.x);
    tell_number(out, b"y1", from.y);
    tell_number(out, b"x2", to.x);
    tell_number(out, b"y2", to.y);
}

/// A band, which is a thick line, with some words that a browser shows where one points at it.
pub(crate) fn tell_band<W: Sink>(
    out: &mut Out<'_, W>,
    class: &[u8],
    from: Point,
    to: Point,
    words: &[u8],
) {
    out.say(b"<line class=\"band ");
    out.say(class);
    out.say(b"\"");
    tell_ends(out, from, to);
    out.say(b"><title>");
    tell_escaped(out, words);
    out.say(b"</title></line>\n");
}

/// A box from its upper left corner.
pub(crate) fn tell_box<W: Sink>(
    out: &mut Out<'_, W>,
    class: &[u8],
    corner: Point,
    width: u64,
    height: u64,
) {
    tell_front(out, b"rect", class);
    tell_number(out, b"x", corner.x);
    tell_number(out, b"y", corner.y);
    tell_number(out, b"width", width);
    tell_number(out, b"height", height);
    out.say(b"/>\n");
}

/// A circle.
pub(crate) fn tell_circle<W: Sink>(out: &mut Out<'_, W>, class: &[u8], middle: Point, radius: u64) {
    tell_front(out, b"circle", class);
    tell_number(out, b"cx", middle.x);
    tell_number(out, b"cy", middle.y);
    tell_number(out, b"r", radius);
    out.say(b"/>\n");
}

/// A text up to its words.
pub(crate) fn tell_text_front<W: Sink>(out: &mut Out<'_, W>, class: &[u8], at: Point) {
    tell_front(out, b"text", class);
    tell_number(out, b"x", at.x);
    tell_number(out, b"y", at.y);
    out.say(b">");
}

/// What is behind the words of a text.
pub(crate) const TEXT_END: &[u8] = b"</text>\n";

/// Writes a text, cut if it has more than `most` bytes.
pub(crate) fn tell_text<W: Sink>(
    out: &mut Out<'_, W>,
    class: &[u8],
    at: Point,
    words: &[u8],
    most: usize,
) {
    tell_text_front(out, class, at);
    match words.get(..most) {
        Some(front) if front.len() < words.len() => {
            tell_escaped(out, front);
            out.say(b"..");
        }
        _ => tell_escaped(out, words),
    }
    out.say(TEXT_END);
}

/// Writes bytes, and escapes those that have a meaning in a picture's text. A control character, which may not stand in
/// one, is written as `?`.
pub(crate) fn tell_escaped<W: Sink>(out: &mut Out<'_, W>, bytes: &[u8]) {
    for byte in bytes {
        match *byte {
            b'<' => out.say(b"&lt;"),
            b'>' => out.say(b"&gt;"),
            b'&' => out.say(b"&amp;"),
            b'"' => out.say(b"&quot;"),
            0..=31 => out.say(b"?"),
            other => out.say(&[other]),
        }
    }
}
