// The first words of a session's calls.
ghost use Rattle.std.specs.Prelude.{◌≡◌};
ghost use Rattle.dialogue.specs.Verbs.{verb_text, verb_of};

use script::is_word;

#[derive(Clone, Copy, PartialEq, Eq, Debug)]
pub(crate) enum Verb {
    Symbols,
    Code,
    Row,
    Policy,
    Memory,
    Use,
    Open,
    Receive,
    Packet,
    Run,
    Solve,
    Show,
    Close,
    Renew,
    Figure,
    Grid,
}

const VERBS: [Verb; 16] = [
    Verb::Symbols,
    Verb::Code,
    Verb::Row,
    Verb::Policy,
    Verb::Memory,
    Verb::Use,
    Verb::Open,
    Verb::Receive,
    Verb::Packet,
    Verb::Run,
    Verb::Solve,
    Verb::Show,
    Verb::Close,
    Verb::Renew,
    Verb::Figure,
    Verb::Grid,
];

impl Verb {
    // The word of a call.
    pub(crate) fn text(self) -> &'static str
        ensures { result.now ≡ verb_text self }
    {
        match self {
            Verb::Symbols => "symbols",
            Verb::Code => "code",
            Verb::Row => "row",
            Verb::Policy => "policy",
            Verb::Memory => "memory",
            Verb::Use => "use",
            Verb::Open => "open",
            Verb::Receive => "receive",
            Verb::Packet => "packet",
            Verb::Run => "run",
            Verb::Solve => "solve",
            Verb::Show => "show",
            Verb::Close => "close",
            Verb::Renew => "renew",
            Verb::Figure => "figure",
            Verb::Grid => "grid",
        }
    }

    // The call of a word; none where it is no call's.
    pub(crate) fn of(word: &[u8]) -> Option<Verb>
        ensures { result ≡ verb_of word.now }
    {
        VERBS
            .iter()
            .copied()
            .find(|verb| is_word(word, verb.text()))
    }
}
