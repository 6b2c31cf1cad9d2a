// The reception figure: how much of a block was received, in whole percent.
ghost use Rattle.std.specs.Prelude.{◌≡◌};
ghost use Rattle.packets.specs.Figure.{percent, IsFigure};

// `received` of `n` in whole percent, rounded down, and 0 where `n` is 0.
pub fn reception_figure(received: u32, n: u32) -> u64
    ensures value { result ≡ percent received n }
    ensures law { IsFigure received n result }
{
    if n == 0 {
        return 0;
    }
    u64::from(received) * 100 / u64::from(n)
}
