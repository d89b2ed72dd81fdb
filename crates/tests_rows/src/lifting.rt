use dirac_lift::{analyse_line, synth_line};

#[test]
fn short_lines(rt: HostRuntime) {
    let mut line = [4i128, 2];
    synth_line(1, line.as_mut_slice());
    assert!(rt; line == [3, 5]);
    analyse_line(1, line.as_mut_slice());
    assert!(rt; line == [4, 2]);
    let mut line = [10i128, 1, 20, -3];
    synth_line(1, line.as_mut_slice());
    assert!(rt; line == [9, 16, 20, 17]);
    let mut line = [4i128, 2];
    synth_line(3, line.as_mut_slice());
    assert!(rt; line == [3, 5]);
    let mut line = [10i128, 1, 20, -3];
    synth_line(3, line.as_mut_slice());
    assert!(rt; line == [9, 10, 21, 18]);
}

/// Ten values, whose both ends clamp, and what each wavelet makes of them, by a plain program from the standard's
/// formulas.
const LINE: [i128; 10] = [100, -7, 33, 12, -250, 61, 5, -90, 17, 44];

#[test]
fn lines_of_ten(rt: HostRuntime) {
    let rows = [
        (
            0u8,
            [103i128, 79, 32, -128, -268, -87, 12, -52, 28, 73],
            [55i128, -91, 46, 141, -164, 202, 26, -117, -6, 26],
        ),
        (
            1,
            [103, 61, 32, -106, -268, -67, 12, -70, 28, 72],
            [63, -74, 45, 120, -174, 183, 26, -101, -1, 27],
        ),
        (
            2,
            [104, 81, 33, -131, -274, -89, 15, -48, 33, 78],
            [47, -91, 44, 141, -147, 202, 24, -117, -16, 26],
        ),
        (
            3,
            [103, 96, 27, 39, -281, -220, 50, -40, -5, 39],
            [47, -107, 23, -21, -94, 311, -42, -95, 31, 27],
        ),
        (
            4,
            [103, 96, 27, 39, -281, -220, 50, -40, -5, 39],
            [47, -107, 23, -21, -94, 311, -42, -95, 31, 27],
        ),
        (
            5,
            [28, 53, 49, -63, -205, -18, 45, -59, 36, 43],
            [98, -54, 17, 70, -185, 123, -21, -95, -27, 65],
        ),
        (
            6,
            [92, 77, 37, -110, -254, -68, 26, -52, 29, 71],
            [47, -86, 41, 120, -159, 181, 18, -114, -12, 32],
        ),
    ];
    for (wavelet, synthesised, analysed) in rows {
        assert!(rt; wavelet <= 6);
        let mut line = LINE;
        synth_line(wavelet, line.as_mut_slice());
        assert!(rt; line == synthesised, "synthesis by wavelet {wavelet}");
        let mut line = LINE;
        analyse_line(wavelet, line.as_mut_slice());
        assert!(rt; line == analysed, "analysis by wavelet {wavelet}");
    }
}
