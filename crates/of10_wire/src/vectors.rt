use super::*;
use std::test::Fail;

#[test]
fn a_header_is_read_highest_byte_first(rt: HostRuntime) {
    let read = header(&[1, 14, 0x12, 0x34, 0xaa, 0xbb, 0xcc, 0xdd]);
    let wanted = Header {
        version: 1,
        kind: 14,
        length: 0x1234,
        xid: 0xaabbccdd,
    };
    assert_eq!(rt; read, wanted);
}

/// The numbers from 0 on.
const NUMBERS: &[u8; 48] = &[
    0, 1, 2, 3, 4, 5, 6, 7, 8, 9, 10, 11, 12, 13, 14, 15, 16, 17, 18, 19, 20, 21, 22, 23, 24, 25,
    26, 27, 28, 29, 30, 31, 32, 33, 34, 35, 36, 37, 38, 39, 40, 41, 42, 43, 44, 45, 46, 47,
];

#[test]
fn a_match_and_a_port_have_their_fields(rt: HostRuntime) {
    let mut front = [0; 40];
    front.copy_from_slice(&NUMBERS[..40]);
    let flow = flow_match(&front);
    assert_eq!(rt; flow.wildcards, 0x00010203);
    assert_eq!(rt; flow.dl_type, 0x1617);
    assert_eq!(rt; flow.tp_dst, 0x2627);
    let port = phy_port(NUMBERS);
    assert_eq!(rt; port.port_no, 0x0001);
    assert_eq!(rt; port.config, 0x18191a1b);
    assert_eq!(rt; port.peer, 0x2c2d2e2f);
}

#[test]
fn a_body_gives_its_bytes_back(rt: HostRuntime) -> Result<(), Fail> {
    let body = Body::from_vec(Vec::from_slice(rt.alloc(), b"abc")?);
    assert_eq!(rt; body.into_vec().as_slice(), b"abc".as_slice());
    Ok(())
}
