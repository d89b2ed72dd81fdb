use dirac_common::Vector;
use dirac_vectors::{predict_dc, predict_mode, predict_split, predict_vector};

#[test]
fn vectors(rt: HostRuntime) {
    let a = Vector { x: 1, y: -1 };
    let b = Vector { x: 2, y: -3 };
    let c = Vector { x: -5, y: 7 };
    for (first, second, third, wanted) in [
        (Some(a), Some(b), None, Vector { x: 2, y: -2 }),
        (Some(a), Some(b), Some(c), Vector { x: 1, y: -1 }),
        (None, None, None, Vector { x: 0, y: 0 }),
        (None, Some(c), None, Vector { x: -5, y: 7 }),
    ] {
        assert_eq!(rt; predict_vector(first, second, third), wanted);
    }
}

#[test]
fn splits_modes_and_dc_values(rt: HostRuntime) {
    let even = predict_split(Some(2), Some(2), Some(0));
    let alone = predict_split(Some(2), None, None);
    assert_eq!(rt; (even, alone), (1, 2));
    let most = predict_mode(Some(true), Some(false), Some(true));
    let none = predict_mode(None, None, None);
    assert_eq!(rt; (most, none), (true, false));
    let values = [
        predict_dc(Some(-3), Some(-3), Some(-4)),
        predict_dc(Some(-3), Some(-4), None),
        predict_dc(Some(-2), Some(-4), Some(-5)),
    ];
    assert_eq!(rt; values, [-3, -3, -4]);
}
