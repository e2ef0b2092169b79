//! Words of a journal's line.
ghost use Rattle.std.specs.Prelude.{◌≡◌, ◌<◌, [], length, decimal};
ghost use Rattle.run_history.specs.Line.{mode_word, action_word};
ghost use Rattle.run_history.specs.Lines.{IsShort, IsAction};
ghost use Rattle.run_history.specs.Reading.{IsCut, IsMode, IsTable, IsKey, table_word, key_word, Reads, ReadsFront, ReadsChoices, ReadsIndices, PutsIndex};

use crate::line::Mode;
use nf_base::card::{KeySize, TableSize};
use nf_base::done::Action;
use nf_base::picks::Picks;
use nf_tokens::decimal;

/// The bytes up to the first separator, and those behind it.
pub fn cut(bytes: &[u8], separator: u8) -> Option<(&[u8], &[u8])>
    ensures { IsCut separator bytes.now result }
{
    for (i, byte) in bytes.iter().enumerate() {
        if *byte == separator {
            return Some((&bytes[..i], &bytes[i + 1..]));
        }
    }
    None
}

/// A decimal below 2^32 without leading zeros.
pub fn number(word: &[u8]) -> Option<u32>
    ensures { Reads decimal IsShort word.now result }
{
    match decimal(word) {
        Some(number) if number <= 0xffff_ffff => Some(number as u32),
        _ => None,
    }
}

/// A number and a space, and the bytes behind them.
pub fn number_first(bytes: &[u8]) -> Option<(u32, &[u8])>
    ensures { ReadsFront decimal 32 IsShort bytes.now result }
{
    let Some((word, rest)) = cut(bytes, b' ') else {
        return None;
    };
    match number(word) {
        Some(number) => Some((number, rest)),
        None => None,
    }
}

/// How many entries a table has and a space, and the bytes behind them.
pub fn table_first(bytes: &[u8]) -> Option<(TableSize, &[u8])>
    ensures { ReadsFront table_word 32 IsTable bytes.now result }
{
    let Some((entries, rest)) = number_first(bytes) else {
        return None;
    };
    match TableSize::of(u64::from(entries)) {
        Some(table) => Some((table, rest)),
        None => None,
    }
}

/// How many bytes a key has.
pub fn key_size(word: &[u8]) -> Option<KeySize>
    ensures { Reads key_word IsKey word.now result }
{
    match number(word) {
        Some(bytes) => KeySize::of(u64::from(bytes)),
        None => None,
    }
}

/// A mode.
fn mode(word: &[u8]) -> Option<Mode>
    ensures { Reads mode_word IsMode word.now result }
{
    match word {
        [b'o', b'n', b'e'] => Some(Mode::One),
        [b's', b'h', b'a', b'r', b'd'] => Some(Mode::Shard),
        [b'l', b'o', b'c', b'k'] => Some(Mode::Lock),
        _ => None,
    }
}

/// A mode and a space, and the bytes behind them.
pub fn mode_first(bytes: &[u8]) -> Option<(Mode, &[u8])>
    ensures { ReadsFront mode_word 32 IsMode bytes.now result }
{
    let Some((word, rest)) = cut(bytes, b' ') else {
        return None;
    };
    match mode(word) {
        Some(mode) => Some((mode, rest)),
        None => None,
    }
}

/// An action.
fn action(word: &[u8]) -> Option<Action>
    ensures { Reads action_word IsAction word.now result }
{
    match word {
        [b's', b'k', b'i', b'p'] => Some(Action::Skip),
        [b'd', b'r', b'o', b'p'] => Some(Action::Drop),
        [b'f', b'l', b'o', b'o', b'd'] => Some(Action::Flood),
        [b't', b'o', b':', port @ ..] => Some(Action::To(number(port)?)),
        _ => None,
    }
}

/// An action and a space, and the bytes behind them.
pub fn action_first(bytes: &[u8]) -> Option<(Action, &[u8])>
    ensures { ReadsFront action_word 32 IsAction bytes.now result }
{
    let Some((word, rest)) = cut(bytes, b' ') else {
        return None;
    };
    match action(word) {
        Some(action) => Some((action, rest)),
        None => None,
    }
}

/// Puts an index behind those that are there; false where the word is none.
fn put_index(word: &[u8], picks: &mut Picks) -> bool
    requires { length picks.old < 16 }
    ensures { PutsIndex word.now picks.old picks.new result }
{
    match number(word) {
        None => false,
        Some(index) => {
            picks.push(index);
            true
        }
    }
}

/// Indices with commas between them, 1 to 16; false where the word is none.
fn indices(word: &[u8], picks: &mut Picks) -> bool
    requires { picks.old ≡ [] }
    ensures { ReadsIndices word.now picks.new result }
{
    let mut rest = word;
    for _k in 0..16u32 {
        match cut(rest, b',') {
            None => return put_index(rest, picks),
            Some((index, more)) => {
                if !put_index(index, picks) {
                    return false;
                }
                rest = more;
            }
        }
    }
    false
}

/// The choices of a packet; false where the word is none.
pub fn choices(word: &[u8], picks: &mut Picks) -> bool
    requires { picks.old ≡ [] }
    ensures { ReadsChoices word.now picks.new result }
{
    match word {
        [b'-'] => true,
        _ => indices(word, picks),
    }
}
