//! The SHA-1 of a text, as a log has it.
ghost use Rattle.std.specs.Prelude.{◌≡◌, ◌≢◌, ◌++◌, ℕ, IfNone, IfOk, IfSome, List, true};
ghost use Rattle.std.specs.List.{list_all};
ghost use Rattle.hex.specs.Hex.{encode_lower};
ghost use Rattle.sha1.specs.Sha1.{sha1};
ghost use Rattle.smi_log_front.specs.Sums as spec;

use hex::encode;
use sha1::Sha1;
use std::alloc::{AllocError, Global};

/// How many digits a SHA-1 has.
pub const SUM_DIGITS: usize = 40;

// Whether a byte is one of its digits.
fn is_sum_digit(c: u8) -> bool
    ensures { result ≡ spec.is_sum_digit c }
{
    c.is_ascii_digit() || (b'a' <= c && c <= b'f')
}

// Whether each byte is.
fn are_sum_digits(text: &[u8]) -> bool
    ensures { result ≡ list_all spec.is_sum_digit text.now }
{
    text.iter().all(|c| is_sum_digit(*c))
}

/// Whether a text may be a SHA-1: 40 digits of base 16, with small letters.
pub fn is_log_sum(text: &[u8]) -> bool
    ensures { result ≡ spec.is_log_sum text.now }
{
    text.len() == SUM_DIGITS && are_sum_digits(text)
}

/// The SHA-1 of a text. The cost is the length of the text. The error is out of memory.
pub fn sum_of(alloc: Global, text: &[u8]) -> Result<Vec<u8>, AllocError>
    ensures { IfOk result (λ sum. sum.items ≡ encode_lower (sha1 text.now)) }
{
    let digits = encode(alloc, Sha1::digest(text))?;
    Vec::from_slice(alloc, digits.as_bytes())
}

/// The SHA-1 in front of a text, and what comes after it.
pub(crate) fn next_sum(text: &[u8]) -> Option<(&[u8], &[u8])>
    ensures some { IfSome result (λ x. (spec.is_log_sum x.0.now ≡ true) × (text.now ≡ x.0.now ++ x.1.now)) }
    ensures none { IfNone result ((sum more : List ℕ) → spec.is_log_sum sum ≡ true → text.now ≢ sum ++ more) }
{
    if text.len() < SUM_DIGITS {
        return None;
    }
    let (sum, more) = text.split_at(SUM_DIGITS);
    if is_log_sum(sum) {
        Some((sum, more))
    } else {
        None
    }
}
