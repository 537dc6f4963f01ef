// The compiled writing, against texts written out by hand.
use crate::writing::write_report;
use books::answers::Cleared;

fn small() -> Cleared {
    Cleared {
        clearing: 1,
        net: 4,
        reserve: 40,
        worst: 0,
        gap: 0,
        weights: 10,
    }
}

#[test]
fn a_byte_short_is_left_alone(rt: HostRuntime) {
    let mut page = [7u8; 52];
    assert_eq!(rt; write_report(small(), &mut page), None);
    assert_eq!(rt; page, [7u8; 52]);
}

#[test]
fn the_rest_stays(rt: HostRuntime) {
    let text = b"clearing=1\nnet=4\nreserve=40\nworst=0\ngap=0\nweights=10\n";
    let mut page = [7u8; 53];
    assert_eq!(rt; write_report(small(), &mut page), Some(53));
    assert_eq!(rt; &page, text);
    let mut page = [7u8; 60];
    assert_eq!(rt; write_report(small(), &mut page), Some(53));
    assert_eq!(rt; &page[0..53], &text[0..53]);
    assert_eq!(rt; &page[53..60], &[7u8; 7][0..7]);
}

#[test]
fn the_farthest_figures(rt: HostRuntime) {
    let cleared = Cleared {
        clearing: u32::MAX,
        net: i128::MIN,
        reserve: i128::MAX,
        worst: 100_000,
        gap: -10,
        weights: u32::MAX,
    };
    let text =
        b"clearing=4294967295\nnet=-170141183460469231731687303715884105728\nreserve=170141183460469231731687303715884105727\nworst=100000\ngap=-10\nweights=4294967295\n";
    let mut page = [7u8; 153];
    assert_eq!(rt; write_report(cleared, &mut page), Some(153));
    assert_eq!(rt; &page, text);
}
