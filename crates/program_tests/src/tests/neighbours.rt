// The points nearest to centres, found by hand or by going through all points: what `near` writes.
use super::*;

const ROWS: [Row; 8] = [
    (
        "the square of side 4, in no order",
        "near keys script",
        "16",
        "3 3 0 0 2 1 1 2 0 3 3 0 1 1 2 2 0 1 1 0 3 1 1 3 2 0 0 2 3 2 2 3",
        "near 0 0 3\nnear 3 0 3\n",
        "near 3 2\npoint 0 0 0 0\npoint 1 1 1 0\npoint 2 1 0 1\n\
            near 3 2\npoint 5 0 3 0\npoint 4 1 2 0\npoint 6 1 2 1\n",
    ),
    (
        "fewer points than are asked for, none and one",
        "near keys script --dims 2",
        "2",
        "2 0 1 3",
        "near 2 2 5\nnear 0 0 0\nnear 2 2 1\n",
        "near 2 3\npoint 11 1 1 3\npoint 4 2 2 0\nnear 0 0\nnear 1 2\npoint 11 1 1 3\n",
    ),
    (
        "five points of one code",
        "near keys script",
        "7",
        "1 1 3 3 1 1 1 1 0 0 1 1 1 1",
        "# one point\nnear 1 1 3\r\nnear 2 2 6",
        "near 3 1\npoint 3 0 1 1\npoint 3 0 1 1\npoint 3 0 1 1\n\
            near 6 2\npoint 3 1 1 1\npoint 3 1 1 1\npoint 3 1 1 1\npoint 3 1 1 1\n\
            point 3 1 1 1\npoint 15 1 3 3\n",
    ),
    (
        "no point",
        "near keys script",
        "0",
        "",
        "near 1 2 3\nnear 4294967295 0 4294967295\n",
        "near 0 0\nnear 0 0\n",
    ),
    (
        "no centre",
        "near keys script",
        "1",
        "5 5",
        "\n# near 1 1 1\n",
        "",
    ),
    (
        "both ends of two coordinates",
        "near keys script --dims 2",
        "1",
        "0 0",
        "near 4294967295 4294967295 4294967295\n",
        "near 1 33\npoint 0 4294967295 0 0\n",
    ),
    (
        "the ends of three coordinates",
        "near keys script --dims 3",
        "2",
        "2097151 2097151 2097151 0 0 0",
        "near 0 2097151 0 1\nnear 2097151 2097151 2097151 2\n",
        "near 1 22\npoint 0 2097151 0 0 0\n\
            near 2 22\npoint 9223372036854775807 0 2097151 2097151 2097151\n\
            point 0 2097151 0 0 0\n",
    ),
    (
        "four coordinates",
        "near keys script --dims 4",
        "3",
        "65535 65535 65535 65535 1 2 3 4 0 0 0 0",
        "near 1 1 1 1 2\nnear 65535 65535 65535 65535 1\n",
        "near 2 3\npoint 0 1 0 0 0 0\npoint 2149 3 1 2 3 4\n\
            near 1 1\npoint 18446744073709551615 0 65535 65535 65535 65535\n",
    ),
];

#[test]
fn rows_have_their_text(rt: HostRuntime) -> Result<(), Fail> {
    check_rows(&rt, &ROWS, &[""])
}
