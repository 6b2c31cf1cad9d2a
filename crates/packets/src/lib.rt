// Packets: the header reader and writer, the cell behind a header, and the reception figure.
#![tactic(auto)]

mod fault;
mod figure;
mod packet;
#[cfg(test)]
mod tests;

pub use fault::HeaderFault;
pub use figure::reception_figure;
pub use packet::{CELL, HEADER, PACKET, read_cell, read_header, write_packet};
