// The lines of a script, each with its number from 1 on.
ghost use Rattle.std.specs.Prelude.{◌≡◌, ◌+◌, ◌≤◌, ◌-◌, ◌^◌, length};
ghost use Rattle.std.specs.Iterator.{at_most};
ghost use Rattle.dialogue.specs.Lines.{Cut, NextLine};

use script::split_at_byte;

// What is left of the script, and how many lines came before.
#[derive(Clone, Copy, PartialEq, Eq, Debug)]
pub(crate) struct Lines<'a> {
    rest: &'a [u8],
    before: usize,
    ghost fits: { before + length rest.now ≤ 2 ^ 64 - 1 },
}

// The first line, and what is left behind it. The last one may lack its newline.
fn cut_line(text: &[u8]) -> (&[u8], &[u8])
    requires { 1 ≤ length text.now }
    ensures { Cut text.now result.0.now result.1.now }
{
    split_at_byte(text, b'\n').unwrap_or((text, &[]))
}

impl<'a> Lines<'a> {
    pub(crate) fn of(script: &'a [u8]) -> Lines<'a>
        ensures rest { result.rest.now ≡ script.now }
        ensures before { result.before ≡ 0 }
    {
        Lines {
            rest: script,
            before: 0,
        }
    }
}

impl<'a> Iterator for Lines<'a> {
    type Item = (usize, &'a [u8]);

    ghost next_gives = { λ s r t. NextLine s.rest.now s.before r t.rest.now t.before };

    ghost remaining = { λ s. at_most (length s.rest.now) };

    fn next(&mut self) -> Option<(usize, &'a [u8])> {
        if self.rest.is_empty() {
            return None;
        }
        let (line, rest) = cut_line(self.rest);
        let number = self.before + 1;
        *self = Lines {
            rest,
            before: number,
        };
        Some((number, line))
    }
}
