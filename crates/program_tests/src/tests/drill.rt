// Inputs drawn from a number, worked out by hand or by an independent program: what `drill` writes.
use super::*;

const THOUSAND: &str = "drill 1000 7\nkeys 1000 distinct 944 levels 1 runs 1\n\
    finds 1000 sum 732048\npoints 1000 found 247 looked 251\nupdates 1000 live 491\n";

const ROWS: [Row; 7] = [
    (
        "drill 2 1",
        "drill 2 1",
        "",
        "",
        "",
        "drill 2 1\nkeys 2 distinct 2 levels 1 runs 1\nfinds 2 sum 1\n\
            points 2 found 0 looked 2\nupdates 2 live 2\n",
    ),
    (
        "drill 1 0",
        "drill 1 0",
        "",
        "",
        "",
        "drill 1 0\nkeys 1 distinct 1 levels 1 runs 1\nfinds 1 sum 1\n\
            points 1 found 0 looked 0\nupdates 1 live 1\n",
    ),
    (
        "drill +01 2147483647",
        "drill +01 2147483647",
        "",
        "",
        "",
        "drill 1 2147483647\nkeys 1 distinct 1 levels 1 runs 1\nfinds 1 sum 0\n\
            points 1 found 1 looked 1\nupdates 1 live 1\n",
    ),
    (
        "drill 1000 7 --workers 1",
        "drill 1000 7 --workers 1",
        "",
        "",
        "",
        THOUSAND,
    ),
    (
        "drill --workers=3 1000 7",
        "drill --workers=3 1000 7",
        "",
        "",
        "",
        THOUSAND,
    ),
    (
        "drill 1000 --workers 64 -- 7",
        "drill 1000 --workers 64 -- 7",
        "",
        "",
        "",
        THOUSAND,
    ),
    (
        "drill 1000 7 --eps 4 --rec 0",
        "drill 1000 7 --eps 4 --rec 0",
        "",
        "",
        "",
        "drill 1000 7\nkeys 1000 distinct 944 levels 4 runs 6\n\
            finds 1000 sum 732048\npoints 1000 found 247 looked 251\nupdates 1000 live 491\n",
    ),
];

#[test]
fn what_is_drawn_is_told(rt: HostRuntime) -> Result<(), Fail> {
    check_rows(&rt, &ROWS, &[""])
}
