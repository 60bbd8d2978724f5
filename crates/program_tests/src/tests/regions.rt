// Points in boxes, counted by hand or by going through all codes: what `box` writes.
use super::*;

const ROWS: [Row; 6] = [
    (
        "the square of side 4, in no order",
        "box keys script --dims 2",
        "16",
        "3 3 0 0 2 1 1 2 0 3 3 0 1 1 2 2 0 1 1 0 3 1 1 3 2 0 0 2 3 2 2 3",
        "box 1 1 2 2\n",
        "box 4 8\npoint 3 1 1\npoint 6 2 1\npoint 9 1 2\npoint 12 2 2\n",
    ),
    (
        "jumps to the end, and an empty region",
        "box keys script --dims 2",
        "2",
        "2 0 1 3",
        "box 1 1 2 2\nbox 2 2 1 1",
        "box 0 2\nbox 0 0\n",
    ),
    (
        "five points of one code",
        "box keys script --dims 2",
        "7",
        "1 1 3 3 1 1 1 1 0 0 1 1 1 1",
        "# one point\nbox 1 1 1 1\r\n",
        "box 5 6\npoint 3 1 1\npoint 3 1 1\npoint 3 1 1\npoint 3 1 1\npoint 3 1 1\n",
    ),
    (
        "both ends of two coordinates",
        "box keys script --dims 2",
        "3",
        "4294967295 4294967295 0 0 4294967295 0",
        "box 4294967295 4294967295 4294967295 4294967295\nbox 0 0 0 0\n",
        "box 1 1\npoint 18446744073709551615 4294967295 4294967295\nbox 1 2\npoint 0 0 0\n",
    ),
    (
        "the high end of three coordinates",
        "box keys script --dims 3",
        "4",
        "2097151 0 0 0 2097151 0 0 0 2097151 2097151 2097151 2097151",
        "box 2097151 0 0 2097151 0 0\nbox 9 9 9 2097151 2097151 2097151\n",
        "box 1 2\npoint 1317624576693539401 2097151 0 0\n\
            box 1 4\npoint 9223372036854775807 2097151 2097151 2097151\n",
    ),
    (
        "four coordinates",
        "box keys script --dims 4",
        "3",
        "65535 65535 65535 65535 1 2 3 4 0 0 0 0",
        "box 0 0 0 0 4 4 4 4\nbox 65535 65535 65535 65535 65535 65535 65535 65535\n",
        "box 2 3\npoint 0 0 0 0 0\npoint 2149 1 2 3 4\n\
            box 1 1\npoint 18446744073709551615 65535 65535 65535 65535\n",
    ),
];

#[test]
fn rows_have_their_text(rt: HostRuntime) -> Result<(), Fail> {
    check_rows(&rt, &ROWS, &[""])
}
