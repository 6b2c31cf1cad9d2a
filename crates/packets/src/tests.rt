// The edges of packets and of the figure.
use crate::fault::HeaderFault;
use crate::figure::reception_figure;
use crate::packet::{read_cell, read_header, write_packet};

#[test]
fn lengths(rt: HostRuntime) {
    let bytes = [0u8; 69];
    assert_eq!(rt; read_header(&bytes[0..67]), Err(HeaderFault::Length(67)));
    assert_eq!(rt; read_header(&bytes[0..68]), Ok((0, 0)));
    assert_eq!(rt; read_header(&bytes), Err(HeaderFault::Length(69)));
    assert_eq!(rt; read_cell(&bytes[0..67]), Err(HeaderFault::Length(67)));
    assert_eq!(rt; read_cell(&bytes[0..68]), Ok([0; 64]));
    assert_eq!(rt; read_cell(&bytes), Err(HeaderFault::Length(69)));
}

#[test]
fn header_bits(rt: HostRuntime) {
    let mut bytes = [0u8; 68];
    bytes[1] = 0x50;
    bytes[3] = 0x07;
    assert_eq!(rt; read_header(&bytes), Ok((5, 7)));
    let ones = [0xffu8; 68];
    assert_eq!(rt; read_header(&ones), Ok((4095, 1048575)));
    assert_eq!(rt; read_cell(&ones), Ok([0xff; 64]));
}

#[test]
fn greatest_numbers(rt: HostRuntime) {
    let mut bytes = [1u8; 68];
    assert_eq!(rt;
        write_packet(&mut bytes, 4096, 0, &[7; 64]),
        Err(HeaderFault::Block(4096))
    );
    assert_eq!(rt;
        write_packet(&mut bytes, 4095, 1048576, &[7; 64]),
        Err(HeaderFault::Number(1048576))
    );
    assert_eq!(rt; bytes, [1; 68]);
    assert_eq!(rt;
        write_packet(&mut bytes, 4095, 1048575, &[0xff; 64]),
        Ok(())
    );
    assert_eq!(rt; bytes, [0xff; 68]);
}

#[test]
fn order_of_refusals(rt: HostRuntime) {
    let mut bytes = [1u8; 69];
    assert_eq!(rt;
        write_packet(&mut bytes, 4096, 1048576, &[7; 64]),
        Err(HeaderFault::Length(69))
    );
    assert_eq!(rt;
        write_packet(&mut bytes[0..68], 4096, 1048576, &[7; 64]),
        Err(HeaderFault::Block(4096))
    );
    assert_eq!(rt; bytes, [1; 69]);
}

#[test]
fn figures(rt: HostRuntime) {
    assert_eq!(rt; reception_figure(2, 7), 28);
    assert_eq!(rt; reception_figure(3, 0), 0);
    assert_eq!(rt; reception_figure(0, 0), 0);
    assert_eq!(rt; reception_figure(512, 512), 100);
    assert_eq!(rt; reception_figure(u32::MAX, 1), 429496729500);
}
