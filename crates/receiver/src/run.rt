// Why a run of packets stops: the byte place of the refused packet, and the fault of the layer that refused it.
ghost use Rattle.std.specs.Prelude.{◌≡◌};
ghost use Rattle.receiver.specs.declared.run.Layer.TheVariants.{Header, Block};

use crate::fault::Fault;
use packets::HeaderFault;

// The layer that refused a packet, with its fault.
#[derive(Clone, Copy, PartialEq, Eq, Debug)]
pub enum Layer {
    Header(HeaderFault),
    Block(Fault),
}

#[derive(Clone, Copy, PartialEq, Eq, Debug)]
pub struct Stopped {
    pub at: usize,
    pub fault: Layer,
}

impl From<HeaderFault> for Layer {
    ghost from_gives = { λ f r. r ≡ Header f };

    fn from(fault: HeaderFault) -> Layer {
        Layer::Header(fault)
    }
}

impl From<Fault> for Layer {
    ghost from_gives = { λ f r. r ≡ Block f };

    fn from(fault: Fault) -> Layer {
        Layer::Block(fault)
    }
}
