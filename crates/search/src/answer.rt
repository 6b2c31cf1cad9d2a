// What a search answers.

// What it counted on the way.
#[derive(Clone, Copy, PartialEq, Eq, Debug)]
pub struct Report {
    pub pivots: u32,
    pub additions: u32,
}

// Why it gives no codeword.
#[derive(Clone, Copy, PartialEq, Eq, Debug)]
pub enum Unfound {
    // The code is not as wide as the table is long; its width.
    OtherWidth(usize),
    // The working memory is too short; the rows that it has to hold.
    ShortMemory(usize),
    // No codeword agrees with what was received.
    NoCodeword(Report),
    // Several do; the number of free pivots.
    Several(Report, u32),
}
