//! The words of a line that stand before its comment, from the last one on.
ghost use Rattle.std.specs.Prelude.{◌≡◌, ◌≤◌, drop, length, take};
ghost use Rattle.sml_text.specs.Bytes.{is_blank as blank};
ghost use Rattle.smi_live_answers.specs.EndWords.{before_end_word, body_of, comment_of, end_word, ends_off, in_word};

// Whether a byte is a blank.
fn is_blank(c: u8) -> bool
    ensures { result ≡ blank c }
{
    c == b' ' || c == b'\t' || c == b'\r' || c == b'\n'
}

// How many bytes are left of a text without the blanks at its end.
fn end_of_words(text: &[u8]) -> usize
    ensures within { result ≤ length text.now }
    ensures end { take result text.now ≡ ends_off blank text.now }
{
    let mut end = text.len();
    while end > 0 && is_blank(text[end - 1]) {
        end -= 1;
    }
    end
}

// How many bytes of a text stand before the word at its end.
fn start_of_word(text: &[u8]) -> usize
    ensures within { result ≤ length text.now }
    ensures end { take result text.now ≡ ends_off in_word text.now }
{
    let mut start = text.len();
    while start > 0 && !is_blank(text[start - 1]) {
        start -= 1;
    }
    start
}

/// A text without the blanks at its end.
pub(crate) fn without_blanks(text: &[u8]) -> &[u8]
    ensures { result.now ≡ ends_off blank text.now }
{
    text.split_at(end_of_words(text)).0
}

/// What stands before the last word of a text, with the blanks before it, and that word, which is empty where there is
/// none.
pub(crate) fn split_end_word(text: &[u8]) -> (&[u8], &[u8])
    ensures before { result.0.now ≡ before_end_word text.now }
    ensures word { result.1.now ≡ end_word text.now }
{
    let words = without_blanks(text);
    words.split_at(start_of_word(words))
}

// The place of the comment of a line, or its end.
fn comment_place(line: &[u8]) -> usize
    ensures within { result ≤ length line.now }
    ensures body { take result line.now ≡ body_of line.now }
    ensures comment { drop result line.now ≡ comment_of line.now }
{
    let mut count = 0;
    while count < line.len() && line[count] != b'!' {
        count += 1;
    }
    count
}

/// What stands before the comment of a line, and the comment, which is empty where there is none.
pub(crate) fn split_comment(line: &[u8]) -> (&[u8], &[u8])
    ensures body { result.0.now ≡ body_of line.now }
    ensures comment { result.1.now ≡ comment_of line.now }
{
    line.split_at(comment_place(line))
}
