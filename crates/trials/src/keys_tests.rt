use keys::comparison::{Comparison, compare};
use keys::key::bit;
use keys::partial::{PartialKey, partial_key};
use keys::zeros::leading_zeros;
use std::cmp::Ordering;

#[test]
fn table_corners_and_the_whole_table(rt: HostRuntime) {
    assert_eq!(rt; leading_zeros(0), 8);
    assert_eq!(rt; leading_zeros(1), 7);
    assert_eq!(rt; leading_zeros(128), 0);
    assert_eq!(rt; leading_zeros(255), 0);
    for byte in 0..=255u8 {
        assert_eq!(rt; u32::from(leading_zeros(byte)), byte.leading_zeros());
    }
}

#[test]
fn bits_of_a_key(rt: HostRuntime) {
    let key = [0x80, 0x01];
    assert_eq!(rt; bit(&key, 0), 1);
    assert_eq!(rt; bit(&key, 1), 1);
    assert_eq!(rt; bit(&key, 2), 0);
    assert_eq!(rt; bit(&key, 15), 0);
    assert_eq!(rt; bit(&key, 16), 1);
    assert_eq!(rt; bit(&key, 17), 0, "past the key's end");
    assert_eq!(rt; bit(&[], 1), 0, "no bytes");
}

#[test]
fn width_1_in_every_pair(rt: HostRuntime) {
    for x in 0..=255u8 {
        for y in 0..=255u8 {
            let offset = (x ^ y).leading_zeros() as u16 + 1;
            let expected = match x.cmp(&y) {
                Ordering::Equal => Comparison::Equal,
                Ordering::Greater => Comparison::Greater(offset),
                Ordering::Less => Comparison::Less(offset),
            };
            assert_eq!(rt; compare(&[x], &[y]), Some(expected));
        }
    }
}

#[test]
fn width_32_parted_at_bit_256_alone(rt: HostRuntime) {
    let even = [0xAAu8; 32];
    let mut odd = even;
    odd[31] = 0xAB;
    assert_eq!(rt; compare(&odd, &even), Some(Comparison::Greater(256)));
    assert_eq!(rt; compare(&even, &odd), Some(Comparison::Less(256)));
    assert_eq!(rt; compare(&odd, &odd), Some(Comparison::Equal));
    assert_eq!(rt; Comparison::Less(256).offset(), Some(256));
    assert_eq!(rt; Comparison::Equal.offset(), None);
    for (offset, length, bits) in [(256, 0, 0), (255, 1, 1), (240, 16, 0xAAAB)] {
        let expected = PartialKey {
            offset,
            length,
            bits,
        };
        assert_eq!(rt;
            partial_key(&odd, offset, 16),
            Some(expected),
            "at {offset}"
        );
    }
}

#[test]
fn no_two_keys_of_one_width(rt: HostRuntime) {
    assert_eq!(rt; compare(&[], &[]), None);
    assert_eq!(rt; compare(&[1], &[1, 0]), None);
    assert_eq!(rt; compare(&[0; 33], &[0; 33]), None);
}

#[test]
fn partial_keys_of_width_1(rt: HostRuntime) {
    // 0x60 is 0110 0000: after the 1 in front and bit 1, the bits 1, 1 and five zeros
    for (offset, l, length, bits) in [
        (0, 2, 2, 0b01),
        (2, 2, 2, 0b10),
        (7, 2, 1, 0),
        (8, 2, 0, 0),
        (3, 0, 0, 0),
    ] {
        let expected = PartialKey {
            offset,
            length,
            bits,
        };
        assert_eq!(rt;
            partial_key(&[0x60], offset, l),
            Some(expected),
            "at {offset}"
        );
    }
    assert_eq!(rt; partial_key(&[0x60], 9, 2), None, "past the key");
    assert_eq!(rt; partial_key(&[0x60], 0, 17), None, "more than 16 bits");
    assert_eq!(rt; partial_key(&[], 0, 2), None, "no key");
}
