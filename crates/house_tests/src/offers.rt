// The figures that terms are made from, at their limits.
use crate::setup::refused_under;
use books::terms::Terms;
use std::process::Abort;
use std::test::Fail;

fn offers(rt: &impl Abort, house: u64, ceiling: u64, gap: u64, number: Option<u8>) {
    assert_eq!(rt; refused_under(Terms::new(house, ceiling, gap)), number);
}

#[test]
fn terms_at_limits(rt: HostRuntime) {
    for (house, ceiling, gap, number) in [
        (0, 1, 0, None),
        (65_535, 100_000, 1_000_000_000, None),
        (65_536, 200, 0, Some(10)),
        (0, 0, 0, Some(10)),
        (0, 100_001, 0, Some(10)),
        (0, 200, 1_000_000_001, Some(10)),
        (u64::MAX, 200, 0, Some(10)),
        (0, u64::MAX, 0, Some(10)),
        (0, 4_294_967_497, 0, Some(10)),
        (0, 200, u64::MAX, Some(10)),
        (0, 200, 4_294_967_296, Some(10)),
    ] {
        offers(&rt, house, ceiling, gap, number);
    }
}

#[test]
fn terms_as_offered(rt: HostRuntime) -> Result<(), Fail> {
    let terms = Terms::new(65_535, 100_000, 1_000_000_000)?;
    assert_eq!(rt; terms.house, 65_535);
    assert_eq!(rt; [terms.ceiling.value, terms.gap], [100_000, 1_000_000_000]);
    Ok(())
}
