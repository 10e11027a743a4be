// What a field of a line holds: a word, or a number, with a sign or without.
#![tactic(auto)]

ghost use Rattle.std.specs.Prelude.{cond, ◌&&◌, ◌≡◌, ◌≤◌, leb, length, Some, None};
ghost use Rattle.words.specs.Words.{all_digits, may_begin, value, numeral, numeral_figures, Spells, same_bytes, begins};
ghost use Rattle.words.specs.Signed.{upwards, downwards, signed_numeral, signed_numeral_figures, SpellsSigned};

// How many digits a number may have, as many as a padded one has.
const MOST_DIGITS: usize = 10;

// The value of up to ten digits, unless a byte is no digit.
#[tactic(auto, using(crate::proofs::Numerals::dues))]
fn digits_value(s: &[u8]) -> Option<u64>
    requires { length s.now ≤ 10 }
    ensures { result ≡ cond (all_digits s.now) (Some (value s.now)) None }
{
    let mut v = 0u64;
    for &b in s {
        if !b.is_ascii_digit() {
            return None;
        }
        v = v * 10 + u64::from(b - b'0');
    }
    Some(v)
}

// Whether a field has 1 to 10 bytes, and begins with no 0 before others unless it is padded to ten.
fn is_well_formed(s: &[u8]) -> bool
    ensures { result ≡ (leb 1 (length s.now) && leb (length s.now) 10 && may_begin s.now) }
{
    match s {
        [] => false,
        [_] => true,
        [b'0', ..] => s.len() == MOST_DIGITS,
        _ => s.len() <= MOST_DIGITS,
    }
}

// A field's number: 1 to 10 digits, no needless 0 before them unless they are ten, at most 4,294,967,295.
#[tactic(auto, using(crate::proofs::Spellings::told))]
pub fn numeral_of(s: &[u8]) -> Option<u32>
    ensures figures { numeral_figures result ≡ numeral_figures (numeral s.now) }
    ensures spelling { Spells s.now result }
{
    if !is_well_formed(s) {
        return None;
    }
    u32::try_from(digits_value(s)?).ok()
}

// A number without a minus, as a signed one.
fn above_zero(n: u32) -> Option<i32>
    ensures { result ≡ upwards (Some n) }
{
    i32::try_from(n).ok()
}

// A number behind a minus, as a signed one. There is no -0.
fn below_zero(n: u32) -> Option<i32>
    ensures { result ≡ downwards (Some n) }
{
    match i32::try_from(n) {
        Ok(magnitude) if 0 < magnitude => Some(-magnitude),
        _ => None,
    }
}

// A field's number where it may carry a minus: at most 2,147,483,647 either way.
#[tactic(auto, using(crate::proofs::Signs::signs))]
pub fn signed_numeral_of(s: &[u8]) -> Option<i32>
    ensures figures { signed_numeral_figures result ≡ signed_numeral_figures (signed_numeral s.now) }
    ensures spelling { SpellsSigned s.now result }
{
    match s {
        [b'-', digits @ ..] => below_zero(numeral_of(digits)?),
        _ => above_zero(numeral_of(s)?),
    }
}

// Whether a field is a word. Inlined, since a comparison with a word that is known folds to one or two tests.
#[inline(always)]
#[tactic(auto, using(crate::proofs::Same::by_equality))]
pub fn is_word(s: &[u8], word: &[u8]) -> bool
    ensures { result ≡ same_bytes s.now word.now }
{
    s == word
}

// Whether a line begins with a word.
#[tactic(auto, using(crate::proofs::Same::by_beginning))]
pub fn begins_with(line: &[u8], word: &[u8]) -> bool
    ensures { result ≡ begins line.now word.now }
{
    line.starts_with(word)
}
