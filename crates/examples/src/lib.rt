// Worked examples over the definitions of the whole receiver: each function carries a table of them.
#![tactic(auto)]

ghost use Rattle.examples.specs.Worked.{WorkedExamples};
ghost use Rattle.examples.specs.Telling.{TellingExamples};

// Searches over one small code, a circulant, its interleaving, and a header.
pub fn worked_examples() -> u8
    ensures { WorkedExamples }
{
    0
}

// Answers that the right rules give and mistaken ones do not.
pub fn telling_examples() -> u8
    ensures { TellingExamples }
{
    0
}
