//! Where bytes are cut at a separator.
ghost use Rattle.std.specs.Prelude.{◌≡◌, ℕ, ◌+◌, ◌<◌, ◌∷◌, [], length, take, drop, nat_eq, position, Some, None, IfSome, MatchOption};
ghost use Rattle.std.specs.List.{slice_split};

use memchr::memchr;

// The place of the first such byte.
fn find_byte(text: &[u8], byte: u8) -> Option<usize>
    ensures place { result ≡ position (λ b. nat_eq b byte) text.now }
    ensures bounded { IfSome result (λ i. i < length text.now) }
{
    memchr(byte, text)
}

/// The bytes before the first separator and those after it, if there is one. It takes no memory.
pub fn split_once(text: &[u8], separator: u8) -> Option<(&[u8], &[u8])>
    ensures parts { let p = (λ (b : ℕ). nat_eq b separator) in MatchOption result (slice_split p text.now ≡ text.now ∷ []) (λ r. slice_split p text.now ≡ r.0.now ∷ slice_split p r.1.now) }
    ensures place { let at = position (λ b. nat_eq b separator) text.now in MatchOption result (at ≡ None) (λ r. (i : ℕ) × (at ≡ Some i) × (r.0.now ≡ take i text.now) × (r.1.now ≡ drop (i + 1) text.now)) }
    ensures shorter { IfSome result (λ r. length r.1.now < length text.now) }
{
    match find_byte(text, separator) {
        Some(end) => Some((&text[..end], &text[end + 1..])),
        None => None,
    }
}
