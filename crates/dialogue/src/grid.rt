// A block for people: its reception figure, and each of its places.
ghost use Rattle.std.specs.Prelude.{◌≡◌, Some};
ghost use Rattle.std.specs.Fmt.{WritesOnOk};
ghost use Rattle.dialogue.specs.Tellings.{bar, place_rest, places_text, grid_text};

use crate::spelled::Spelled;
use crate::telling::Told;
use crate::verb::Verb;
use session::Entry;
use std::fmt;

// So many of the bar's ten characters are full.
fn write_bar<W: fmt::Write>(f: &mut fmt::Formatter<W>, full: u64) -> fmt::Result
    ensures { WritesOnOk W.write_str_gives f.old result (bar full) f.new }
{
    for _ in 0..full {
        f.write_str("#")?;
    }
    for _ in full..10 {
        f.write_str(".")?;
    }
    Ok(())
}

// What is told behind a place's number.
fn write_place<S: Spelled, W: fmt::Write>(
    f: &mut fmt::Formatter<W>,
    heard: bool,
    shown: &Entry<S>,
) -> fmt::Result
    ensures { WritesOnOk W.write_str_gives f.old result (place_rest S.Spelled.spelling heard shown.now) f.new }
{
    match (heard, *shown) {
        (true, Entry::Shown(Ok(symbol))) => {
            f.write_str(" heard ")?;
            symbol.write_plainly(f)
        }
        (false, Entry::Shown(Ok(symbol))) => {
            f.write_str(" recovered ")?;
            symbol.write_plainly(f)
        }
        (true, _) => f.write_str(" received"),
        (false, _) => f.write_str(" missing"),
    }
}

// The places, up to the first that the block has not.
fn write_places<S: Spelled, W: fmt::Write>(
    f: &mut fmt::Formatter<W>,
    entries: &[Entry<S>],
) -> fmt::Result
    ensures { WritesOnOk W.write_str_gives f.old result (places_text S.Spelled.spelling 0 entries.now) f.new }
{
    let mut rest = entries;
    for place in 0..entries.len() {
        let [mark, shown, more @ ..] = rest else {
            break;
        };
        let Entry::Marked(Some(heard)) = mark else {
            break;
        };
        write!(f, "\n  {place}")?;
        write_place(f, *heard, shown)?;
        rest = more;
    }
    Ok(())
}

// The answers to the calls that a grid is made of: the figure, and for each place its mark and a show.
#[derive(Clone, Copy)]
pub(crate) struct Grid<'a, S> {
    pub entries: &'a [Entry<S>],
}

impl<S: Spelled> fmt::Display for Grid<'_, S> {
    ghost output = { λ g. Some (grid_text S.Spelled.spelling g.entries.now) };

    fn fmt<W: fmt::Write>(&self, f: &mut fmt::Formatter<W>) -> fmt::Result {
        match self.entries {
            [Entry::Figured(percent), places @ ..] => {
                write!(f, "grid {percent}% [")?;
                write_bar(f, *percent / 10)?;
                f.write_str("]")?;
                write_places(f, places)
            }
            [entry, ..] => {
                let told = Told {
                    verb: Verb::Grid,
                    entry,
                };
                write!(f, "{told}")
            }
            [] => Ok(()),
        }
    }
}
