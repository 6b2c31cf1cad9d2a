// The interface of a symbol kind.
ghost use Rattle.std.specs.Prelude.{◌≡◌};
ghost use Rattle.symbols.specs.Kinds.{Kind, Laws};

pub trait Symbol: Copy {
    // The functions of the kind, as the logic sees them.
    ghost kind: { Kind Self };

    fn zero() -> Self
        ensures { result ≡ kind.zero };

    fn unit() -> Self
        ensures { result ≡ kind.unit };

    fn add(&mut self, other: &Self)
        ensures { self.new ≡ kind.sum self.old other.now };

    fn is_zero(&self) -> bool
        ensures { result ≡ kind.is_zero self.now };

    ghost lawful: { Laws kind };
}
