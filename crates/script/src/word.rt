// The words of a line.
ghost use Rattle.std.specs.Prelude.{◌≡◌, ◌==◌, position};
ghost use Rattle.std.specs.Option.{option_map};
ghost use Rattle.script.specs.Words.{separates, in_word, skip, first_word, after_word, blank, only_word, passed_over, cut_at};

// Whether a byte separates words: a space, a tab or a carriage return.
fn separates(byte: u8) -> bool
    ensures { result ≡ separates byte }
{
    matches!(byte, b' ' | b'\t' | b'\r')
}

// Where the first byte of a word stands, none where a line has no word.
fn word_start(line: &[u8]) -> Option<usize>
    ensures { result ≡ position in_word line.now }
{
    line.iter().position(|byte| !separates(*byte))
}

// Where the first byte that separates words stands.
fn word_end(text: &[u8]) -> Option<usize>
    ensures { result ≡ position separates text.now }
{
    text.iter().position(|byte| separates(*byte))
}

// The line from its first word on.
fn skip(line: &[u8]) -> &[u8]
    ensures { result.now ≡ skip line.now }
{
    &line[word_start(line).unwrap_or(line.len())..]
}

// The first word, empty where there is none, and what follows it.
pub fn split_word(line: &[u8]) -> (&[u8], &[u8])
    ensures word { result.0.now ≡ first_word line.now }
    ensures rest { result.1.now ≡ after_word line.now }
{
    let text = skip(line);
    text.split_at(word_end(text).unwrap_or(text.len()))
}

// Whether a line has no word.
pub fn is_blank(line: &[u8]) -> bool
    ensures { result ≡ blank line.now }
{
    skip(line).is_empty()
}

// The first word, empty where there is none; none where another follows.
pub fn only_word(line: &[u8]) -> Option<&[u8]>
    ensures { option_map (λ w. w.now) result ≡ only_word line.now }
{
    let (word, rest) = split_word(line);
    is_blank(rest).then_some(word)
}

// Whether a line is a comment or blank.
pub fn passed_over(line: &[u8]) -> bool
    ensures { result ≡ passed_over line.now }
{
    matches!(line, [b'#', ..]) || is_blank(line)
}

// Where the first such byte stands.
fn place_of(text: &[u8], byte: u8) -> Option<usize>
    ensures { result ≡ position (λ b. b == byte) text.now }
{
    text.iter().position(|b| *b == byte)
}

// What stands before the first such byte, and what behind it.
pub fn split_at_byte(text: &[u8], byte: u8) -> Option<(&[u8], &[u8])>
    ensures { option_map (λ p. (p.0.now, p.1.now)) result ≡ cut_at byte text.now }
{
    let i = place_of(text, byte)?;
    Some((&text[..i], &text[i + 1..]))
}
