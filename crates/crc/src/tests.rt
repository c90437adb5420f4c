//! Check values of block transfers, against known ones.
use crate::register::checksum;

#[test]
fn known_check_values(rt: HostRuntime) {
    assert_eq!(rt; checksum(b"123456789"), 0x31c3);
    assert_eq!(rt; checksum(&[]), 0);
    assert_eq!(rt; checksum(b"A"), 0x58e5);
}

#[test]
fn single_bytes(rt: HostRuntime) {
    assert_eq!(rt; checksum(&[0x00]), 0x0000);
    assert_eq!(rt; checksum(&[0x01]), 0x1021);
    assert_eq!(rt; checksum(&[0x80]), 0x9188);
    assert_eq!(rt; checksum(&[0xff]), 0x1ef0);
}

#[test]
fn a_value_with_its_check_value_has_zero(rt: HostRuntime) {
    assert_eq!(rt; checksum(&[0x31, 0x32, 0x33]), 0x9752);
    assert_eq!(rt; checksum(&[0x31, 0x32, 0x33, 0x97, 0x52]), 0);
}

#[test]
fn padding_changes_the_check_value(rt: HostRuntime) {
    let value = checksum(&[1, 2, 3, 4, 5, 6, 7, 8]);
    let padded = checksum(&[1, 2, 3, 4, 5, 6, 7, 8, 0, 0, 0, 0, 0, 0]);
    assert_ne!(rt; value, padded);
}

#[test]
fn bytes_in_another_order(rt: HostRuntime) {
    assert_ne!(rt; checksum(&[1, 2]), checksum(&[2, 1]));
}
