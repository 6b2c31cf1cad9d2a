// What a word of a list writes: a record, or a base entry. `let .. else { return Ok(None) }` is `?` of an `Option` where memory may run out too.
ghost use Rattle.std.specs.Prelude.{◌≡◌, ℕ, List, IfOk, vec_items, Option};
ghost use Rattle.std.specs.Option.{option_map};
ghost use Rattle.piles.specs.Readings.{half_of, record_of, entry_of, list_of};

use codes::Record;
use script::{Words, read_number, split_at_byte};
use std::alloc::{AllocError, Global};
use std::str::from_utf8;

pub(crate) trait Written: Sized + Drop {
    ghost written: { List ℕ → Option Self };

    // What a word writes; none where it writes nothing of this kind.
    fn of_word(word: &[u8]) -> Option<Self>
        ensures { result ≡ written word.now };
}

// A number of 16 bits.
fn read_half(word: &[u8]) -> Option<u16>
    ensures { result ≡ half_of word.now }
{
    u16::try_from(read_number(word)?).ok()
}

// R:C
impl Written for Record {
    ghost written = { record_of };

    fn of_word(word: &[u8]) -> Option<Record> {
        let (row, column) = split_at_byte(word, b':')?;
        Some(Record {
            row: read_half(row)?,
            column: read_half(column)?,
        })
    }
}

// A number of 16 bits, with a minus sign or without.
impl Written for i16 {
    ghost written = { entry_of };

    fn of_word(word: &[u8]) -> Option<i16> {
        // A slice pattern, which says no less than `first()?`.
        let [first, ..] = word else {
            return None;
        };
        if *first == b'+' {
            return None;
        }
        from_utf8(word).ok()?.parse::<i16>().ok()
    }
}

// What the words of a line write, word by word; none where one of them writes nothing of this kind.
pub(crate) fn read_list<T: Written>(heap: Global, line: &[u8]) -> Result<Option<Vec<T>>, AllocError>
    ensures { IfOk result (λ o. option_map vec_items o ≡ list_of T.Written.written line.now) }
{
    let mut items = Vec::new(heap);
    for word in Words::of(line) {
        let Some(item) = T::of_word(word) else {
            return Ok(None);
        };
        items.push(item)?;
    }
    Ok(Some(items))
}
