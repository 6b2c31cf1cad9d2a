// What each refusal of the program tells: the number of its cause, and the first value that it returns.
ghost use Rattle.std.specs.Prelude.{◌≡◌};
ghost use Rattle.refusals.specs.Refusals.{Refusal, value_of};

pub trait Numbered {
    // What the refusal means.
    ghost meaning: { Self → Refusal };

    // The number of the refusal, as the rules fix it: an impl is the one place that gives each case its own.
    fn number(&self) -> u8
        ensures { result ≡ (meaning self.now).number };

    // Its first value, 0 where it has none.
    fn value(&self) -> u64
        ensures { result ≡ value_of (meaning self.now) };
}
