use dirac_common::Kind;
use dirac_quant::{factor, reduce, restore};

#[test]
fn factors(rt: HostRuntime) {
    let rows = [
        (0u8, 4u64),
        (1, 5),
        (2, 6),
        (3, 7),
        (4, 8),
        (5, 10),
        (6, 11),
        (7, 13),
        (8, 16),
        (99, 112_863_206),
    ];
    for (index, wanted) in rows {
        assert!(rt; index <= 99);
        assert_eq!(rt; factor(index), wanted, "at {index}");
    }
}

#[test]
fn restored_values(rt: HostRuntime) {
    let rows = [
        (1i64, 12u8, Kind::Intra, 12i128),
        (1, 12, Kind::Inter, 11),
        (-1, 12, Kind::Intra, -12),
        (-1, 12, Kind::Inter, -11),
        (0, 12, Kind::Intra, 0),
        (1, 1, Kind::Intra, 2),
        (549_755_813_886, 0, Kind::Intra, 549_755_813_886),
        (-549_755_813_886, 0, Kind::Inter, -549_755_813_886),
    ];
    for (value, index, kind, wanted) in rows {
        assert!(rt; index <= 99 && value <= 549_755_813_886 && -549_755_813_886 <= value);
        assert_eq!(rt; restore(value, index, kind), wanted, "{value} at {index}");
    }
}

#[test]
fn reduced_values(rt: HostRuntime) {
    let rows = [(-9i64, 4u8, -4i64), (9, 4, 4), (3, 12, 0), (-9, 0, -9)];
    for (value, index, wanted) in rows {
        assert!(rt; index <= 99 && value <= 549_755_813_886 && -549_755_813_886 <= value);
        assert_eq!(rt; reduce(value, index), wanted, "{value} at {index}");
    }
}
