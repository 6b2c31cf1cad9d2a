// The line that tells a call's answer.
ghost use Rattle.std.specs.Prelude.{◌≡◌, ◌++◌, Some};
ghost use Rattle.std.specs.Fmt.{WritesOnOk};
ghost use Rattle.packets.specs.Faults.{meaning as header_meaning};
ghost use Rattle.receiver.specs.Refusals.{meaning};
ghost use Rattle.dialogue.specs.Tellings.{number_text, layer_meaning, layer_name, granted, packed_text, ran_text, report_text, solved_text, shown_text, entry_text};

use crate::spelled::Spelled;
use crate::verb::Verb;
use packets::HeaderFault;
use receiver::{Fault, Layer, Numbered, Stopped, Unsolved};
use search::Report;
use session::Entry;
use std::fmt;

// The numbers of a search that found no codeword, and of one that found several.
const NO_CODEWORD: u8 = 13;

const SEVERAL: u8 = 14;

// A block's refusal by its number and its value, where it has one.
fn write_fault<W: fmt::Write>(f: &mut fmt::Formatter<W>, fault: Fault) -> fmt::Result
    ensures { WritesOnOk W.write_str_gives f.old result (number_text (meaning fault)) f.new }
{
    match fault {
        Fault::NoStamp => write!(f, "{}", fault.number()),
        _ => write!(f, "{} {}", fault.number(), fault.value()),
    }
}

// A packet's refusal by its number and its value.
fn write_header_fault<W: fmt::Write>(f: &mut fmt::Formatter<W>, fault: HeaderFault) -> fmt::Result
    ensures { WritesOnOk W.write_str_gives f.old result (number_text (header_meaning fault)) f.new }
{
    write!(f, "{} {}", fault.number(), fault.value())
}

fn write_layer<W: fmt::Write>(f: &mut fmt::Formatter<W>, layer: Layer) -> fmt::Result
    ensures { WritesOnOk W.write_str_gives f.old result (number_text (layer_meaning layer)) f.new }
{
    match layer {
        Layer::Header(fault) => write_header_fault(f, fault),
        Layer::Block(fault) => write_fault(f, fault),
    }
}

fn layer_name(layer: Layer) -> &'static str
    ensures { result.now ≡ layer_name layer }
{
    match layer {
        Layer::Header(_) => "header",
        Layer::Block(_) => "block",
    }
}

fn write_granted<W: fmt::Write>(f: &mut fmt::Formatter<W>, answer: Result<(), Fault>) -> fmt::Result
    ensures { WritesOnOk W.write_str_gives f.old result (granted answer) f.new }
{
    match answer {
        Ok(()) => f.write_str(" granted"),
        Err(fault) => {
            f.write_str(" refused ")?;
            write_fault(f, fault)
        }
    }
}

fn write_packed<W: fmt::Write>(f: &mut fmt::Formatter<W>, answer: Result<(), Layer>) -> fmt::Result
    ensures { WritesOnOk W.write_str_gives f.old result (packed_text answer) f.new }
{
    match answer {
        Ok(()) => f.write_str(" granted"),
        Err(layer) => {
            f.write_str(" refused ")?;
            write_layer(f, layer)
        }
    }
}

fn write_ran<W: fmt::Write>(
    f: &mut fmt::Formatter<W>,
    answer: Result<usize, Stopped>,
) -> fmt::Result
    ensures { WritesOnOk W.write_str_gives f.old result (ran_text answer) f.new }
{
    match answer {
        Ok(count) => write!(f, " granted {count}"),
        Err(Stopped { at, fault }) => {
            write!(f, " refused at {at} {} ", layer_name(fault))?;
            write_layer(f, fault)
        }
    }
}

fn write_report<W: fmt::Write>(f: &mut fmt::Formatter<W>, report: Report) -> fmt::Result
    ensures { WritesOnOk W.write_str_gives f.old result (report_text report) f.new }
{
    write!(
        f,
        " pivots {} additions {}",
        report.pivots, report.additions
    )
}

fn write_solved<W: fmt::Write>(
    f: &mut fmt::Formatter<W>,
    answer: Result<Report, Unsolved>,
) -> fmt::Result
    ensures { WritesOnOk W.write_str_gives f.old result (solved_text answer) f.new }
{
    match answer {
        Ok(report) => {
            f.write_str(" granted")?;
            write_report(f, report)
        }
        Err(Unsolved::Refused(fault)) => {
            f.write_str(" refused ")?;
            write_fault(f, fault)
        }
        Err(Unsolved::NoCodeword(report)) => {
            write!(f, " refused {NO_CODEWORD}")?;
            write_report(f, report)
        }
        Err(Unsolved::Several(report, shortfall)) => {
            write!(f, " refused {SEVERAL}")?;
            write_report(f, report)?;
            write!(f, " shortfall {shortfall}")
        }
    }
}

fn write_shown<S: Spelled, W: fmt::Write>(
    f: &mut fmt::Formatter<W>,
    answer: Result<S, Fault>,
) -> fmt::Result
    ensures { WritesOnOk W.write_str_gives f.old result (shown_text S.Spelled.spelling answer) f.new }
{
    match answer {
        Ok(symbol) => {
            f.write_str(" granted ")?;
            symbol.write(f)
        }
        Err(fault) => {
            f.write_str(" refused ")?;
            write_fault(f, fault)
        }
    }
}

// The answer of a call of this word.
#[derive(Clone, Copy)]
pub(crate) struct Told<'a, S> {
    pub verb: Verb,
    pub entry: &'a Entry<S>,
}

impl<S: Spelled> fmt::Display for Told<'_, S> {
    ghost output = { λ t. Some (entry_text S.Spelled.spelling t.verb t.entry.now) };

    fn fmt<W: fmt::Write>(&self, f: &mut fmt::Formatter<W>) -> fmt::Result {
        f.write_str(self.verb.text())?;
        match *self.entry {
            Entry::Opened(answer)
            | Entry::Received(answer)
            | Entry::Closed(answer)
            | Entry::Renewed(answer) => write_granted(f, answer),
            Entry::Packed(answer) => write_packed(f, answer),
            Entry::Ran(answer) => write_ran(f, answer),
            Entry::Solved(answer) => write_solved(f, answer),
            Entry::Shown(answer) => write_shown(f, answer),
            Entry::Figured(percent) => write!(f, " {percent}"),
            Entry::Marked(_) => Ok(()),
            Entry::NoBlock => f.write_str(" no block open"),
            Entry::PermitInHand => f.write_str(" permit in hand"),
            Entry::NoPermit => f.write_str(" no permit in hand"),
            Entry::OtherBlocks => f.write_str(" permit of another block"),
            Entry::NotCells => f.write_str(" not cells"),
            Entry::NoCode => f.write_str(" no code in hand"),
            Entry::NoMemory => f.write_str(" no memory"),
        }
    }
}
