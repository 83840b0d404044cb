//! The checksums, by the values that the field publishes.

use disk_base::{crc32, crc32_lvm, crc32c, crc32c_without};
use std::test::*;

#[test]
fn sums_the_check_message_and_nothing(rt: HostRuntime) {
    assert_eq!(rt; crc32(b"123456789"), 0xCBF4_3926);
    assert_eq!(rt; crc32(b""), 0);
    assert_eq!(rt; crc32_lvm(b""), 0xF597_A6CF);
    assert_eq!(rt; crc32c(b"123456789"), 0xE306_9283);
    assert_eq!(rt; crc32c(&[0; 32]), 0x8A91_36AA);
    assert_eq!(rt; crc32c_without(&[0; 32], 4), 0x8A91_36AA);
    assert_eq!(rt;
        crc32c_without(b"1234_sum_56789", 4),
        crc32c(b"1234\0\0\0\0_56789")
    );
}
