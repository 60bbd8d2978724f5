// Indexes worked out by hand: what `build` writes.
use super::*;

const WORDS: &str = "build keys --eps 0 --rec 0";

const ROWS: [Row; 3] = [
    ("no key", WORDS, "0", "", "", "keys 0 distinct 0 levels 0\n"),
    (
        "three levels",
        WORDS,
        "6 0 1 4 9 16 25",
        "",
        "",
        "keys 6 distinct 6 levels 3\nlevel 0 list 6 eps 0 runs 3\n\
            level 1 list 3 eps 0 runs 2\nlevel 2 list 2 eps 0 runs 1\n",
    ),
    (
        "repeated keys",
        WORDS,
        "4 5 5 5 9",
        "",
        "",
        "keys 4 distinct 2 levels 2\nlevel 0 list 3 eps 0 runs 2\nlevel 1 list 2 eps 0 runs 1\n",
    ),
];

#[test]
fn rows_have_their_text(rt: HostRuntime) -> Result<(), Fail> {
    let workers = ["--workers 1", "--workers 2", "--workers 3", "--workers 64"];
    check_rows(&rt, &ROWS, &workers)
}
