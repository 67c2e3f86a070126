//! Readings of doubles, with values by hand.
use crate::reading;
use fraction::Fraction;
use std::process::Abort;

/// The bits of a double, and numerator and denominator of what it is read as.
type Row = (u64, i128, i128);

const READINGS: &[Row] = &[
    // 0, -0 and 1
    (0x0000_0000_0000_0000, 0, 1),
    (0x8000_0000_0000_0000, 0, 1),
    (0x3ff0_0000_0000_0000, 1, 1),
    // 1/3, 2/3, 0.025, 0.05, 0.3333, 1/10000
    (0x3fd5_5555_5555_5555, 1, 3),
    (0x3fe5_5555_5555_5555, 2, 3),
    (0x3f99_9999_9999_999a, 1, 40),
    (0x3fa9_9999_9999_999a, 1, 20),
    (0x3fd5_54c9_85f0_6f69, 3333, 10000),
    (0x3f1a_36e2_eb1c_432d, 1, 10000),
    // 1/10001 is 0.00009999000099990002
    (
        0x3f1a_3637_230a_fb37,
        4999500049995001,
        50000000000000000000,
    ),
    // 0.1 + 0.2 is 0.30000000000000004, and 1 - 2^-53 is 0.9999999999999999
    (0x3fd3_3333_3333_3334, 7500000000000001, 25000000000000000),
    (0x3fef_ffff_ffff_ffff, 9999999999999999, 10000000000000000),
    // 2^-24 is 0.000000059604644775390625: ..062e-23 is as near as ..063e-23, but doesn't round to it
    (
        0x3e70_0000_0000_0000,
        5960464477539063,
        100000000000000000000000,
    ),
    // 3 * 2^-24 is 0.000000178813934326171875: ..187e-23 and ..188e-23 are equally near, and both round to it
    (
        0x3e88_0000_0000_0000,
        4470348358154297,
        25000000000000000000000,
    ),
    // 2^-44 is 0.00000000000005684341886080801486..: ..801e-29 is nearer than ..802e-29, but doesn't round to it
    (
        0x3d30_0000_0000_0000,
        2842170943040401,
        50000000000000000000000000000,
    ),
    // 1e-25, 1e-30, 1e-31, 1.5e-30
    (0x3abe_f2d0_f5da_7dd9, 1, 10000000000000000000000000),
    (0x39b4_484b_feeb_c2a0, 1, 1000000000000000000000000000000),
    (0x3980_39d6_6589_6880, 1, 1000000000000000000000000000000),
    (0x39be_6c71_fe61_a3ef, 1, 500000000000000000000000000000),
    // 2^-1021, 2^-1022 and the least double, 2^-1074
    (0x0020_0000_0000_0000, 1, 1000000000000000000000000000000),
    (0x0010_0000_0000_0000, 1, 1000000000000000000000000000000),
    (0x0000_0000_0000_0001, 1, 1000000000000000000000000000000),
];

/// Two NaNs, both infinities, 1 + 2^-52, 2, -2^-1074 and -1.
const UNREADABLE: &[u64] = &[
    0x7ff8_0000_0000_0000,
    0xfff0_0000_0000_0001,
    0x7ff0_0000_0000_0000,
    0xfff0_0000_0000_0000,
    0x3ff0_0000_0000_0001,
    0x4000_0000_0000_0000,
    0x8000_0000_0000_0001,
    0xbff0_0000_0000_0000,
];

/// Returns numerator and denominator of a reading, and 0 and 0 if there is none.
fn terms(read: Option<Fraction>) -> (i128, i128) {
    match read {
        Some(x) => (x.ratio().num(), x.ratio().den()),
        None => (0, 0),
    }
}

/// Asserts that a row of a table holds; the bits say which.
fn expect(rt: &impl Abort, holds: bool, bits: u64) {
    assert!(rt; holds, "{bits}");
}

/// Whether each double from 0 to 1 is read as the fraction of its row.
#[test]
fn doubles_from_0_to_1(rt: HostRuntime) {
    for (bits, num, den) in READINGS {
        expect(&rt, terms(reading(*bits)) == (*num, *den), *bits);
    }
}

/// Whether other doubles have no reading.
#[test]
fn other_doubles(rt: HostRuntime) {
    for bits in UNREADABLE {
        expect(&rt, reading(*bits).is_none(), *bits);
    }
}
