//! Worked examples of the definitions, and numbers at their bounds.

ghost use Rattle.std.specs.Prelude.{codes};
ghost use Rattle.orc_decimal.specs.{Decimals.{IsDecimal}, Canonical.{IsCanonical}};

use orc_decimal::*;

// 255 is the greatest number of eight bits.
fn decimals_by_hand()
    ensures greatest { IsDecimal 8 (codes "255") }
    ensures too_large { ¬ IsDecimal 8 (codes "256") }
    ensures zero { IsDecimal 8 (codes "0") }
    ensures zero_first { ¬ IsDecimal 8 (codes "07") }
    ensures plain { IsCanonical (codes "70") }
    ensures not_plain { ¬ IsCanonical (codes "07") }
{}

const CASES: [(&[u8], Option<u64>); 12] = [
    (b"0", Some(0)),
    (b"7", Some(7)),
    (b"4294967296", Some(4_294_967_296)),
    (b"18446744073709551615", Some(u64::MAX)),
    (b"18446744073709551616", None),
    (b"", None),
    (b"00", None),
    (b"07", None),
    (b"+7", None),
    (b"-0", None),
    (b"7 ", None),
    (b"\xff", None),
];

#[test]
fn canonical_decimals_alone_are_numbers(rt: HostRuntime) {
    for (text, want) in CASES {
        assert_eq!(rt; number_of(text), want);
    }
}
