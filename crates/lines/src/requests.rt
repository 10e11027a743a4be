// What a line asks by its shape: its word, and the numbers after it.
ghost use Rattle.std.specs.Prelude.{◌≡◌, ℕ, List, Option};
ghost use Rattle.words.specs.Words.{numeral};
ghost use Rattle.words.specs.Signed.{signed_numeral};
ghost use Rattle.fields.specs.Reading.{pieces};
ghost use Rattle.lines.specs.Lines.{of_one, of_two, two_fields, three_fields, shaped};

use crate::Request;
use fields::Taken;
use terms::Refusal;

// A number as a field holds it: without a sign, or with one.
trait Number: Copy {
    ghost numeral: { List ℕ → Option Self };

    // The field's number, if it is one.
    fn read(field: &[u8]) -> Option<Self>
        ensures { result ≡ numeral field.now };
}

impl Number for u32 {
    ghost numeral = { numeral };

    fn read(field: &[u8]) -> Option<u32> {
        words::numeral_of(field)
    }
}

impl Number for i32 {
    ghost numeral = { signed_numeral };

    fn read(field: &[u8]) -> Option<i32> {
        words::signed_numeral_of(field)
    }
}

// The number of the one field after a word. It has to be there.
fn one<N: Number>(a: &[u8]) -> Result<N, Refusal>
    ensures { result ≡ of_one N.numeral (λ n. n) a.now }
{
    if a.is_empty() {
        return Err(Refusal::WrongShape);
    }
    N::read(a).ok_or(Refusal::NotANumber)
}

// The numbers of the two fields after a word. Both have to be there before either is read.
fn two<N: Number>(a: &[u8], b: &[u8]) -> Result<(N, N), Refusal>
    ensures { result ≡ of_two N.numeral (λ n m. (n, m)) a.now b.now }
{
    if a.is_empty() || b.is_empty() {
        return Err(Refusal::WrongShape);
    }
    let first = N::read(a).ok_or(Refusal::NotANumber)?;
    let second = N::read(b).ok_or(Refusal::NotANumber)?;
    Ok((first, second))
}

// What a line of two fields asks.
fn two_fields(word: &[u8], a: &[u8]) -> Result<Request, Refusal>
    ensures { result ≡ two_fields word.now a.now }
{
    if words::is_word(word, b"N") {
        let i = one(a)?;
        return Ok(Request::AskNumber { i });
    }
    Err(Refusal::WrongShape)
}

// What a line of three fields asks. By tests, since a `match` on the words was tried: it leaves a goal open for each byte at which a field may differ from one.
fn three_fields(word: &[u8], a: &[u8], b: &[u8]) -> Result<Request, Refusal>
    ensures { result ≡ three_fields word.now a.now b.now }
{
    if words::is_word(word, b"AREA") {
        let (w, h) = two(a, b)?;
        return Ok(Request::SetArea { w, h });
    }
    if words::is_word(word, b"ORIGIN") {
        let (ox, oy) = two(a, b)?;
        return Ok(Request::SetOrigin { ox, oy });
    }
    if words::is_word(word, b"S") {
        let (x, y) = two(a, b)?;
        return Ok(Request::AskSquare { x, y });
    }
    Err(Refusal::WrongShape)
}

// What a line asks by the fields that are taken of it.
#[tactic(auto, unfolding(crate::specs::Lines::shaped))]
pub(crate) fn made_of(taken: Option<Taken<'_>>) -> Result<Request, Refusal>
    ensures { result ≡ shaped (pieces taken.entry) }
{
    match taken {
        Some(Taken::Two { word, a }) => two_fields(word, a),
        Some(Taken::Three { word, a, b }) => three_fields(word, a, b),
        None => Err(Refusal::WrongShape),
    }
}
