// Indexes whose pieces aren't joined: what `relax` writes.
use super::*;

const TWO: &str = "relax keys script --eps 0 --rec 0 --pieces 2";

const ROWS: [Row; 8] = [
    (
        "three levels",
        TWO,
        "6 0 1 4 9 16 25",
        "",
        "find 17\n",
        "keys 6 distinct 6 levels 3\nlevel 0 list 6 eps 0 runs 4 slack 1\n\
            level 1 list 4 eps 0 runs 2\nlevel 2 list 2 eps 0 runs 1\nfind 17 5\n",
    ),
    (
        "two pieces and no question",
        TWO,
        "4 0 10 11 12",
        "",
        "",
        "keys 4 distinct 4 levels 2\nlevel 0 list 4 eps 0 runs 2 slack 1\n\
            level 1 list 2 eps 0 runs 1\n",
    ),
    (
        "no key",
        TWO,
        "0",
        "",
        "find 0\nfind 9\n",
        "keys 0 distinct 0 levels 0\nfind 0 0\nfind 9 0\n",
    ),
    (
        "one key, and the pieces that are taken where none are told",
        "relax keys script",
        "1 7",
        "",
        "find 6\nfind 10\n",
        "keys 1 distinct 1 levels 1\nlevel 0 list 1 eps 64 runs 1 slack 0\nfind 6 0\nfind 10 1\n",
    ),
    (
        "repeated keys, and a piece for each point",
        "relax keys script --eps 0 --rec 0",
        "4 5 5 5 9",
        "",
        "find 4\nfind 6\nfind 10\n",
        "keys 4 distinct 2 levels 3\nlevel 0 list 3 eps 0 runs 3 slack 2\n\
            level 1 list 3 eps 0 runs 2\nlevel 2 list 2 eps 0 runs 1\n\
            find 4 0\nfind 6 3\nfind 10 4\n",
    ),
    (
        "one piece",
        "relax keys script --eps 0 --rec 0 --pieces 1",
        "6 0 1 4 9 16 25",
        "",
        "find 0\nfind 9\nfind 26\n",
        "keys 6 distinct 6 levels 3\nlevel 0 list 6 eps 0 runs 3 slack 0\n\
            level 1 list 3 eps 0 runs 2\nlevel 2 list 2 eps 0 runs 1\n\
            find 0 0\nfind 9 3\nfind 26 6\n",
    ),
    (
        "the most pieces, more than keys",
        "relax keys script --eps 0 --rec 0 --pieces 65536",
        "6 0 1 4 9 16 25",
        "",
        "find 9\n",
        "keys 6 distinct 6 levels 4\nlevel 0 list 6 eps 0 runs 6 slack 5\n\
            level 1 list 6 eps 0 runs 3\nlevel 2 list 3 eps 0 runs 2\n\
            level 3 list 2 eps 0 runs 1\nfind 9 3\n",
    ),
    (
        "the greatest bound",
        "relax keys script --eps 1048576 --pieces 3",
        "6 0 1 4 9 16 25",
        "",
        "find 26\n",
        "keys 6 distinct 6 levels 2\nlevel 0 list 6 eps 1048576 runs 3 slack 2\n\
            level 1 list 3 eps 4 runs 1\nfind 26 6\n",
    ),
];

#[test]
fn rows_have_their_text(rt: HostRuntime) -> Result<(), Fail> {
    let workers = ["--workers 1", "--workers 2", "--workers 3", "--workers 64"];
    check_rows(&rt, &ROWS, &workers)
}
