// A card's layout: whether a file is the card of an area's right table, a table written as a card, and a card's table copied out.
#![tactic(auto)]

ghost use Rattle.std.specs.Prelude.{true, false, cond, ◌∷◌, [], ◌≡◌, ◌+◌, ◌-◌, ◌*◌, ◌%◌, ◌≤◌, ◌<◌, min, eqb, length, take};
ghost use Rattle.std.proofs.lemmas.List.Edits.{sets};
ghost use Rattle.terms.specs.Terms.{most_squares, Limits};
ghost use Rattle.terms.specs.Telling.{Tells};
ghost use Rattle.sectors.specs.Sectors.{words_of, sealed, packed, first_bad_in, whole_blocks};
ghost use Rattle.sectors.specs.Steps.{slice};
ghost use Rattle.layouts.specs.Layouts.{head, table_blocks, card_of, card, card_bytes};
ghost use Rattle.layouts.specs.Steps.{Room, Reaches, in_use, AllTold, RightTold, PartTold, Frames, Headed, table_in};

use leaves::{ByNumber, BySquare, Kind};
use terms::Area;

// How many entries are computed at a time to judge a card: 8 blocks of them, 4,032 bytes of stack.
const AT_A_TIME: usize = 1008;

// How many blocks a table of so many places takes.
fn blocks_for(places: u32) -> u32
    requires { places ≤ most_squares }
    ensures { result ≡ table_blocks places }
{
    places.div_ceil(126)
}

// How many bytes an area's card has.
pub fn bytes_for(area: Area) -> u64
    requires { Limits area.w area.h }
    ensures { result ≡ card_bytes area.w area.h }
{
    512 * (1 + u64::from(blocks_for(area.w * area.h)))
}

// Block number b of a file.
fn block_of(file: &[u8], b: usize) -> &[u8]
    requires { 512 * b + 512 ≤ length file.now }
    ensures size { length result.now ≡ 512 }
    ensures words { words_of result.now ≡ slice (words_of file.now) (128 * b) 128 }
{
    let at = 512 * b;
    &file[at..at + 512]
}

// Whether the file has the entries of successive numbers from `first` on, block by block. `first` begins a block.
fn entries_held(file: &[u8], first: u32, entries: &[u32]) -> bool
    requires { (first % 126 ≡ 0) × Room file.now (first + length entries.now) × (first + length entries.now ≤ most_squares) }
    ensures { Tells result (AllTold false (words_of file.now) first entries.now) }
{
    let blocks = &file[512 * (1 + first as usize / 126)..];
    for (words, block) in entries.chunks(126).zip(blocks.chunks_exact(512)) {
        if !sectors::has_words(block, words) {
            return false;
        }
    }
    true
}

// Whether the file has each of successive numbers from `first` on, at the place of its entry.
fn numbers_held(file: &[u8], first: u32, entries: &[u32]) -> bool
    requires { Reaches file.now entries.now × (first + length entries.now ≤ most_squares) }
    ensures { Tells result (AllTold true (words_of file.now) first entries.now) }
{
    for (i, p) in entries.iter().enumerate() {
        let p = *p as usize;
        if sectors::word_at(file, 128 * (1 + p / 126) + p % 126) != first + i as u32 {
            return false;
        }
    }
    true
}

// Whether the file has what is due for successive numbers from `first` on, as many as a lent buffer has entries, which are computed into it.
fn stretch_held<T: Kind>(file: &[u8], area: Area, first: u32, buffer: &mut [u32]) -> bool
    requires { Limits area.w area.h × Room file.now (area.w * area.h) × (first % 126 ≡ 0)
        × (first + length buffer.old ≤ area.w * area.h) }
    ensures { Tells result (PartTold T.BY_SQUARE (words_of file.now) area.w area.h first (length buffer.old)) }
{
    stretches::stretch(area, first, buffer);
    if T::BY_SQUARE {
        return numbers_held(file, first, buffer);
    }
    entries_held(file, first, buffer)
}

// Whether the file's table is the right one.
fn table_held<T: Kind>(file: &[u8], area: Area) -> bool
    requires { Limits area.w area.h × Room file.now (area.w * area.h) }
    ensures { Tells result (RightTold T.BY_SQUARE (words_of file.now) area.w area.h (area.w * area.h)) }
{
    // Not 0: a field of zeros is a call of `memset`, and the library calls nothing.
    let mut buffer: [u32; AT_A_TIME] = [1; AT_A_TIME];
    let places = area.w * area.h;
    for first in (0..places).step_by(AT_A_TIME) {
        let m = AT_A_TIME.min((places - first) as usize);
        if !stretch_held::<T>(file, area, first, &mut buffer[..m]) {
            return false;
        }
    }
    true
}

// Whether each of the table's blocks has its frame: its count, and zeros for words that are not in use. By their numbers, which tell how many words are in use.
fn frames_held(file: &[u8], places: u32) -> bool
    requires { Room file.now places × (places ≤ most_squares) }
    ensures { Tells result (Frames (words_of file.now) places (table_blocks places)) }
{
    for b in 0..blocks_for(places) {
        let used = 126.min(places - 126 * b);
        if !sectors::is_framed(block_of(file, 1 + b as usize), used as usize) {
            return false;
        }
    }
    true
}

// Whether block 0 is that of the area's card.
fn head_held(file: &[u8], area: Area, kind: u32) -> bool
    requires { 512 ≤ length file.now }
    ensures { Tells result (Headed (words_of file.now) area.w area.h kind) }
{
    let block = block_of(file, 0);
    sectors::has_words(block, &[1, area.w, area.h, kind]) && sectors::is_framed(block, 4)
}

// Whether a file without a bad check is the card of the area's right table: by square if kind 2 is told, else by number. The kind stays a number,
// here and where a card is written: both answer of every number, and a narrower type would ask more.
pub fn is_card(file: &[u8], area: Area, kind: u32) -> bool
    requires { Limits area.w area.h × (first_bad_in file.now ≡ whole_blocks file.now) }
    ensures { Tells result (file.now ≡ card area.w area.h kind) }
{
    file.len() as u64 == bytes_for(area)
        && head_held(file, area, kind)
        && frames_held(file, area.w * area.h)
        && if kind == 2 {
            table_held::<BySquare>(file, area)
        } else {
            table_held::<ByNumber>(file, area)
        }
}

// Block 0 of a card.
fn write_head(file: &mut [u8], area: Area, kind: u32)
    requires { 512 ≤ length file.old }
    ensures { words_of file.new ≡ sets (words_of file.old) 0 (sealed (head area.w area.h kind)) }
{
    sectors::write_block(&mut file[..512], &[1, area.w, area.h, kind]);
}

// The blocks of a table, from block 1 on.
fn write_blocks(file: &mut [u8], table: &[u32])
    requires { (length file.old ≡ 512 * (1 + table_blocks (length table.now))) × (length table.now ≤ most_squares) }
    ensures { words_of file.new ≡ sets (words_of file.old) 128 (packed (table_blocks (length table.now)) table.now) }
{
    for (b, words) in table.chunks(126).enumerate() {
        let at = 512 * (1 + b);
        sectors::write_block(&mut file[at..at + 512], words);
    }
}

// A table as a card.
pub fn write_table(file: &mut [u8], area: Area, kind: u32, table: &[u32])
    requires { Limits area.w area.h × (length file.old ≡ card_bytes area.w area.h) × (length table.now ≡ area.w * area.h) }
    ensures { file.new ≡ card_of area.w area.h kind table.now }
{
    write_head(file, area, kind);
    write_blocks(file, table);
}

// A card's table, copied out. By the numbers of blocks: of what `chunks_mut` lends no proof knows an element afterwards.
pub fn read_table(file: &[u8], table: &mut [u32])
    requires { Room file.now (length table.old) × (length table.old ≤ most_squares) }
    ensures { table.new ≡ table_in (words_of file.now) (length table.old) }
{
    let places = table.len();
    for b in 0..places.div_ceil(126) {
        let to = 126 * b;
        let end = places.min(to + 126);
        sectors::copy_words(block_of(file, 1 + b), &mut table[to..end]);
    }
}
