// The fields of a line, and a reader that takes them one at a time, left to right.
#![tactic(auto)]

ghost use Rattle.std.specs.Prelude.{◌≡◌, option_copied, option_map};
ghost use Rattle.fields.specs.Reading.{up_to_space, field_at, past, slice_at, taken, pieces, three_read};

// The fields of a line that has two or three, and each shape has as many.
#[derive(Clone, Copy)]
pub enum Taken<'a> {
    Two {
        word: &'a [u8],
        a: &'a [u8],
    },
    Three {
        word: &'a [u8],
        a: &'a [u8],
        b: &'a [u8],
    },
}

// The bytes before the first space.
fn up_to_space(s: &[u8]) -> &[u8]
    ensures bytes { result.now ≡ up_to_space s.now }
    ensures place { result.ref_ptr ≡ s.entry.ref_ptr }
{
    match s.iter().position(|b| *b == b' ') {
        Some(n) => &s[..n],
        None => s,
    }
}

// The field of a line that begins at a place, if the line reaches so far. It is no `get`, which would not say where in the line its part lies.
fn field_at(line: &[u8], at: usize) -> Option<&[u8]>
    ensures bytes { option_copied result ≡ field_at line.now at }
    ensures slice { result ≡ option_map (slice_at line.entry at) (field_at line.now at) }
{
    if line.len() < at {
        return None;
    }
    Some(up_to_space(&line[at..]))
}

// A reader over a line: the line and a place in it. The customer's document asks for this form: a thin reader with the line's bytes and a place, over a
// function of a slice and a number.
#[derive(Drop)]
struct Reader<'a> {
    line: &'a [u8],
    at: usize,
}

impl<'a> Reader<'a> {
    // Takes the field at the reader's place, and moves past it and the space after it.
    fn next_field(&mut self) -> Option<&'a [u8]>
        ensures field { option_copied result ≡ field_at self.old.line.now self.old.at }
        ensures slice { result ≡ option_map (slice_at self.old.line self.old.at) (field_at self.old.line.now self.old.at) }
        ensures line { self.new.line ≡ self.old.line }
        ensures place { self.new.at ≡ past self.old.at (field_at self.old.line.now self.old.at) }
    {
        let field = field_at(self.line, self.at)?;
        self.at += field.len() + 1;
        Some(field)
    }
}

// Takes the fields that any shape can need, one at a time from the left, and looks whether one more begins, without a walk to its end.
pub fn read_three(line: &[u8]) -> Option<Taken<'_>>
    ensures bytes { pieces result ≡ three_read line.now }
    ensures slices { result ≡ taken line.entry (three_read line.now) }
{
    let mut reader = Reader { line, at: 0 };
    let word = reader.next_field()?;
    let a = reader.next_field()?;
    let Some(b) = reader.next_field() else {
        return Some(Taken::Two { word, a });
    };
    if reader.at <= line.len() {
        return None;
    }
    Some(Taken::Three { word, a, b })
}
