// Indexes worked out by hand: what `explain` writes.
use super::*;

const NO_BOUND: &str = "explain keys --eps 0 --rec 0";

const ROWS: [Row; 10] = [
    (
        "no key",
        NO_BOUND,
        "0",
        "",
        "",
        "keys 0 distinct 0 levels 0\n",
    ),
    (
        "one key",
        NO_BOUND,
        "1 7",
        "",
        "",
        "keys 1 distinct 1 levels 1\nlevel 0 list 1 eps 0 runs 1\n\
            run 0 1 pair 0 0 line 7 0 0 1 end\n",
    ),
    (
        "a point under the line",
        NO_BOUND,
        "4 0 1 2 10",
        "",
        "",
        "keys 4 distinct 4 levels 2\nlevel 0 list 4 eps 0 runs 2\n\
            run 0 3 pair 0 1 line 0 0 1 1 cut under 0 1 3\nrun 3 4 pair 3 3 line 10 3 0 1 end\n\
            level 1 list 2 eps 0 runs 1\nrun 0 2 pair 0 1 line 0 0 1 10 end\n",
    ),
    (
        "a point over the line",
        NO_BOUND,
        "4 0 10 11 12",
        "",
        "",
        "keys 4 distinct 4 levels 2\nlevel 0 list 4 eps 0 runs 2\n\
            run 0 2 pair 0 1 line 0 0 1 10 cut over 0 1 2\nrun 2 4 pair 2 3 line 11 2 1 1 end\n\
            level 1 list 2 eps 0 runs 1\nrun 0 2 pair 0 1 line 0 0 1 11 end\n",
    ),
    (
        "a line that begins below position 0",
        "explain keys --eps 1 --rec 0",
        "4 0 10 11 12",
        "",
        "",
        "keys 4 distinct 4 levels 1\nlevel 0 list 4 eps 1 runs 1\n\
            run 0 4 pair 0 1 line 0 -1 3 10 end\n",
    ),
    (
        "the ends of keys and of the error bound",
        "explain keys --eps 1048576 --rec 0",
        "2 0 18446744073709551615",
        "",
        "",
        "keys 2 distinct 2 levels 1\nlevel 0 list 2 eps 1048576 runs 1\n\
            run 0 2 pair 0 1 line 0 -1048576 2097153 18446744073709551615 end\n",
    ),
    (
        "squares",
        NO_BOUND,
        "6 0 1 4 9 16 25",
        "",
        "",
        "keys 6 distinct 6 levels 3\nlevel 0 list 6 eps 0 runs 3\n\
            run 0 2 pair 0 1 line 0 0 1 1 cut under 0 1 2\n\
            run 2 4 pair 2 3 line 4 2 1 5 cut under 2 3 4\nrun 4 6 pair 4 5 line 16 4 1 9 end\n\
            level 1 list 3 eps 0 runs 2\nrun 0 2 pair 0 1 line 0 0 1 4 cut under 0 1 2\n\
            run 2 3 pair 2 2 line 16 2 0 1 end\n\
            level 2 list 2 eps 0 runs 1\nrun 0 2 pair 0 1 line 0 0 1 16 end\n",
    ),
    (
        "repeated keys, with a closing point",
        NO_BOUND,
        "4 5 5 5 9",
        "",
        "",
        "keys 4 distinct 2 levels 2\nlevel 0 list 3 eps 0 runs 2\n\
            run 0 2 pair 0 1 line 5 0 3 1 cut under 0 1 2\nrun 2 3 pair 2 2 line 9 3 0 1 end\n\
            level 1 list 2 eps 0 runs 1\nrun 0 2 pair 0 1 line 5 0 1 4 end\n",
    ),
    (
        "repeated keys whose closing point is a key",
        NO_BOUND,
        "3 5 5 6",
        "",
        "",
        "keys 3 distinct 2 levels 1\nlevel 0 list 2 eps 0 runs 1\n\
            run 0 2 pair 0 1 line 5 0 2 1 end\n",
    ),
    (
        "equal slopes",
        NO_BOUND,
        "4 0 1 2 3",
        "",
        "",
        "keys 4 distinct 4 levels 1\nlevel 0 list 4 eps 0 runs 1\n\
            run 0 4 pair 0 1 line 0 0 1 1 end\n",
    ),
];

#[test]
fn rows_have_their_text(rt: HostRuntime) -> Result<(), Fail> {
    check_rows(&rt, &ROWS, &[""])
}
