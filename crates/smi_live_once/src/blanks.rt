//! Texts in parts with a blank between them.
ghost use Rattle.std.specs.Prelude.{◌≡◌, ◌<◌, ◌≤◌, ◌++◌, ◌∷◌, ◌+◌, ℕ, IfNone, IfSome, drop, length, take};
ghost use Rattle.std.specs.List.{slice_index_or};
ghost use Rattle.smi_live_once.specs.Forms.{HasNoBlank};

// How many bytes are before the first blank; all if there is no blank.
fn bytes_before_blank(text: &[u8]) -> usize
    ensures within { result ≤ length text.now }
    ensures before { HasNoBlank (take result text.now) }
    ensures blank { result < length text.now → slice_index_or text.now result 0 ≡ 32 }
{
    let mut count = 0;
    while count < text.len() && text[count] != b' ' {
        count += 1;
    }
    count
}

// How many bytes are up to the last blank, with it; none if there is no blank.
fn bytes_to_last_blank(text: &[u8]) -> usize
    ensures within { result ≤ length text.now }
    ensures behind { HasNoBlank (drop result text.now) }
    ensures blank { (n : ℕ) → result ≡ n + 1 → slice_index_or text.now n 0 ≡ 32 }
{
    let mut end = text.len();
    while end > 0 && text[end - 1] != b' ' {
        end -= 1;
    }
    end
}

/// The parts before and after the first blank.
#[tactic(auto, using(crate::proofs::Parting::parts_at, crate::proofs::Parting::whole_part))]
pub(crate) fn split_first(text: &[u8]) -> Option<(&[u8], &[u8])>
    ensures some { IfSome result (λ p. (text.now ≡ p.0.now ++ 32 ∷ p.1.now) × HasNoBlank p.0.now) }
    ensures none { IfNone result (HasNoBlank text.now) }
{
    let count = bytes_before_blank(text);
    if count < text.len() {
        return Some((text.split_at(count).0, text.split_at(count + 1).1));
    }
    None
}

/// The parts before and after the last blank.
#[tactic(auto, using(crate::proofs::Parting::parts_before, crate::proofs::Parting::whole_behind))]
pub(crate) fn split_last(text: &[u8]) -> Option<(&[u8], &[u8])>
    ensures some { IfSome result (λ p. (text.now ≡ p.0.now ++ 32 ∷ p.1.now) × HasNoBlank p.1.now) }
    ensures none { IfNone result (HasNoBlank text.now) }
{
    let end = bytes_to_last_blank(text);
    if end > 0 {
        return Some((text.split_at(end - 1).0, text.split_at(end).1));
    }
    None
}
