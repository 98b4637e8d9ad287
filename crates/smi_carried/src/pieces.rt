//! Pieces of a text. No function here takes memory, and each costs at most the length of what it looks at.
ghost use Rattle.std.specs.Prelude.{◌≡◌, ◌≢◌, ◌<◌, ◌≤◌, ◌^◌, ◌++◌, ◌∷◌, ℕ, IfNone, IfSome, List, false, length, option_map, take};
ghost use Rattle.std.specs.List.{slice_index_or};
ghost use Rattle.sml_text.specs.Bytes.{is_digit};
ghost use Rattle.sml_text.specs.Decimal.{decimal_text};
ghost use Rattle.sml_text.specs.Tokens.{Each};
ghost use Rattle.smi_journal.specs.CallText.{name_or_nothing, spaced};
ghost use Rattle.smi_carried.specs.CarriedText.{carried_object_text};
ghost use Rattle.smi_carried.specs.Pieces.{ComesAfter, is_other_byte};

use smi_live_once::number_in;
use sml_domain::{Domain, ObjId};
use sml_tree::Name;

/// What comes after a text that stands in front of another.
pub fn after<'a>(text: &'a [u8], front: &[u8]) -> Option<&'a [u8]>
    ensures { ComesAfter text.now front.now (option_map (λ more. more.now) result) }
{
    text.strip_prefix(front)
}

// What comes after a name, which may be none.
fn after_name<'a>(text: &'a [u8], name: Option<Name>) -> Option<&'a [u8]>
    ensures { ComesAfter text.now (name_or_nothing name) (option_map (λ more. more.now) result) }
{
    match name {
        Some(name) => after(text, name.as_bytes()),
        None => Some(text),
    }
}

// What comes after a name with a blank before it.
#[tactic(auto, using(crate::proofs::Cuts::after_both, crate::proofs::Cuts::after_none))]
fn after_word<'a>(text: &'a [u8], name: Option<Name>) -> Option<&'a [u8]>
    ensures { ComesAfter text.now (spaced (name_or_nothing name)) (option_map (λ more. more.now) result) }
{
    match after(text, b" ") {
        Some(more) => after_name(more, name),
        None => None,
    }
}

/// What comes after a keyword and the name of an object.
#[tactic(auto, using(crate::proofs::Cuts::after_both, crate::proofs::Cuts::after_none))]
pub fn after_object<'a>(
    text: &'a [u8],
    keyword: &[u8],
    domain: &Domain,
    o: ObjId,
) -> Option<&'a [u8]>
    ensures { ComesAfter text.now (carried_object_text keyword.now domain.now o)
        (option_map (λ more. more.now) result) }
{
    match after(text, keyword) {
        Some(more) => after_word(more, domain.object_name(o)),
        None => None,
    }
}

// How many bytes are before the first that ends them; all if there is none.
fn bytes_before(text: &[u8], end: u8) -> usize
    ensures within { result ≤ length text.now }
    ensures before { Each (is_other_byte end) (take result text.now) }
    ensures found { result < length text.now → slice_index_or text.now result 0 ≡ end }
{
    let mut count = 0;
    while count < text.len() && text[count] != end {
        count += 1;
    }
    count
}

/// What is before the first byte that ends it, and what comes after that.
#[tactic(auto, using(crate::proofs::Cuts::cut_at, crate::proofs::Cuts::no_end))]
pub(crate) fn cut(text: &[u8], end: u8) -> Option<(&[u8], &[u8])>
    ensures some { IfSome result (λ x. (text.now ≡ x.0.now ++ end ∷ x.1.now) × Each (is_other_byte end) x.0.now) }
    ensures none { IfNone result (Each (is_other_byte end) text.now) }
{
    let count = bytes_before(text, end);
    if count < text.len() {
        return Some((text.split_at(count).0, text.split_at(count + 1).1));
    }
    None
}

/// The number that is before the byte that ends it, and what comes after that.
#[tactic(auto, using(crate::proofs::Cuts::no_number_cut, crate::proofs::Cuts::no_number))]
pub fn next_number(text: &[u8], end: u8) -> Option<(u64, &[u8])>
    requires { is_digit end ≡ false }
    ensures some { IfSome result (λ x. text.now ≡ decimal_text x.0 ++ end ∷ x.1.now) }
    ensures held { IfSome result (λ x. x.0 < 2 ^ 64) }
    ensures none { IfNone result ((n : ℕ) (more : List ℕ) → n < 2 ^ 64 → text.now ≢ decimal_text n ++ end ∷ more) }
{
    let (digits, more) = cut(text, end)?;
    match number_in(digits) {
        Some(number) => Some((number, more)),
        None => None,
    }
}
