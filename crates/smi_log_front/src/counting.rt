//! How many lines a text has.
ghost use Rattle.std.specs.Prelude.{◌≡◌, ◌≤◌, ◌++◌, ◌∷◌, ℕ, List, [], length};
ghost use Rattle.smi_log_front.specs.Faults as spec;

// How many line feeds a byte is.
fn feeds_of(byte: u8) -> usize
    ensures is { result ≡ spec.line_count (byte ∷ []) }
    ensures few { result ≤ 1 }
{
    if byte == b'\n' { 1 } else { 0 }
}

// How many line feeds there are.
#[tactic(auto, using(crate::proofs::LineCounts::byte_counted))]
fn line_count(text: &[u8]) -> usize
    ensures is { result ≡ spec.line_count text.now }
    ensures few { result ≤ length text.now }
{
    let mut count = 0;
    for byte in text {
        count += feeds_of(*byte);
    }
    count
}

/// How many lines there are before what is left of a text.
#[tactic(auto, using(crate::proofs::LineCounts::front_taken))]
pub(crate) fn lines_before(text: &[u8], rest: &[u8]) -> usize
    requires { length rest.now ≤ length text.now }
    ensures is { (front : List ℕ) → text.now ≡ front ++ rest.now → result ≡ spec.line_count front }
    ensures few { result ≤ length text.now }
{
    line_count(text.split_at(text.len() - rest.len()).0)
}
