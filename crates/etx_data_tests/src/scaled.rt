// Values from "TeX: The Program" worked by hand, and each call that takes memory once.
use etx_scaled::{Ratio, badness, nx_plus_y, print_scaled, round_half, xn_over_d};
use std::test::Fail;

#[test]
fn badness_of_small_and_no_glue(rt: HostRuntime) {
    assert_eq!(rt; badness(32768, 81920), 6);
    assert_eq!(rt; badness(0, 0), 0);
    assert_eq!(rt; badness(1, 0), 10000);
}

#[test]
fn quotients_with_remainders(rt: HostRuntime) {
    assert_eq!(rt; xn_over_d(327680, 36408, 65536), Some((182040, 0)));
    assert_eq!(rt; xn_over_d(7, 1, 2), Some((3, 1)));
    assert_eq!(rt; xn_over_d(-7, 1, 2), Some((-3, -1)));
    assert_eq!(rt; xn_over_d(1073741823, 65536, 1), None);
}

#[test]
fn products_with_sums(rt: HostRuntime) {
    assert_eq!(rt; nx_plus_y(2, 3, 4), Some(10));
    assert_eq!(rt; nx_plus_y(2, 1073741823, 0), None);
}

#[test]
fn halves_go_away_from_zero(rt: HostRuntime) {
    assert_eq!(rt; round_half(7, 2), 4);
    assert_eq!(rt; round_half(-7, 2), -4);
    let half = Ratio { num: 1, den: 2 };
    assert_eq!(rt; half.of(-5), -3);
    assert_eq!(rt; half.of(4_000_000_000), 1_000_000_000);
}

#[test]
fn decimals(rt: HostRuntime) -> Result<(), Fail> {
    // A third of a point needs five digits, of which the last is rounded.
    for (scaled, text) in [
        (655360, "10.0"),
        (1, "0.00002"),
        (21845, "0.33333"),
        (-98304, "-1.5"),
    ] {
        let mut out = Vec::new(rt.alloc());
        print_scaled(rt.alloc(), scaled, &mut out)?;
        assert_eq!(rt; out.as_slice(), text.as_bytes());
    }
    Ok(())
}
