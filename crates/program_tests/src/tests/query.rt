// Questions answered by hand: what `query` writes.
use super::*;

const NO_BOUND: &str = "query keys script --eps 0";

const GREATEST_BOUND: &str = "query keys script --eps 1048576";

/// The texts are those with windows, and no bound above level 0.
const ROWS: [Row; 9] = [
    ("no key", NO_BOUND, "0", "", "find 5\n", "find 5 0\n"),
    (
        "one key",
        NO_BOUND,
        "1 7",
        "",
        "find 6\nfind 7\nfind 8\n",
        "find 6 0\nfind 7 0\nwindow 0 0 1\nfind 8 1\nwindow 0 0 1\n",
    ),
    (
        "three levels",
        NO_BOUND,
        "6 0 1 4 9 16 25",
        "",
        "find 17\n",
        "find 17 5\nwindow 2 0 2\nwindow 1 1 3\nwindow 0 3 5\n",
    ),
    (
        "the ends of keys and of the error bound",
        GREATEST_BOUND,
        "2 0 18446744073709551615",
        "",
        "find 18446744073709551615\n",
        "find 18446744073709551615 1\nwindow 0 0 2\n",
    ),
    (
        "repeated keys, with a closing point",
        NO_BOUND,
        "4 5 5 5 9",
        "",
        "find 4\nfind 6\nfind 10\n",
        "find 4 0\nfind 6 3\nwindow 1 0 1\nwindow 0 2 4\n\
            find 10 4\nwindow 1 0 2\nwindow 0 2 4\n",
    ),
    (
        "repeated keys whose closing point is a key",
        NO_BOUND,
        "3 5 5 6",
        "",
        "find 7\n",
        "find 7 3\nwindow 0 1 3\n",
    ),
    (
        "repeated keys alone",
        NO_BOUND,
        "2 3 3",
        "",
        "find 9\n",
        "find 9 2\nwindow 0 1 2\n",
    ),
    (
        "the greatest key twice",
        NO_BOUND,
        "2 18446744073709551615 18446744073709551615",
        "",
        "find 18446744073709551615\n",
        "find 18446744073709551615 0\nwindow 0 0 1\n",
    ),
    (
        "leading zeros, a byte 13, a comment, a blank line, and no last line end",
        GREATEST_BOUND,
        "4 0 1 2 10",
        "",
        "# two\n\nfind 007\r\n\tfind  1 ",
        "find 7 3\nwindow 0 0 4\nfind 1 1\nwindow 0 0 4\n",
    ),
];

/// No table, the smallest one, one that the keys stand in together, and the greatest.
const WINDOWS: [&str; 4] = [
    "--rec 0 --windows --buckets 0",
    "--rec 0 --windows --buckets 1",
    "--rec 0 --windows --buckets 4",
    "--rec 0 --windows --buckets 20",
];

const FINDS: [&str; 4] = ["--buckets 0", "--buckets 1", "--buckets 4", "--buckets 20"];

/// The lines of the questions alone.
fn finds_of<R: AllocGlobal>(rt: &R, text: &str) -> Result<Vec<u8>, Fail> {
    let mut finds = Vec::new(rt.alloc());
    for line in text.lines() {
        if line.starts_with("find") {
            finds.extend_from_slice(line.as_bytes())?;
            finds.push(b'\n')?;
        }
    }
    Ok(finds)
}

#[test]
fn rows_have_their_text(rt: HostRuntime) -> Result<(), Fail> {
    check_rows(&rt, &ROWS, &WINDOWS)
}

fn check_finds<R: AllocGlobal + Abort + Threads + Wait + Sync>(
    rt: &R,
    row: &Row,
) -> Result<(), Fail> {
    let finds = finds_of(rt, row.5)?;
    for more in &FINDS {
        check_row(rt, row, more, &finds)?;
    }
    Ok(())
}

/// Without the flag there are no windows. Rows with fewer questions than keys go by the keys alone,
/// the others by an index.
#[test]
fn rows_have_no_windows_without_the_flag(rt: HostRuntime) -> Result<(), Fail> {
    for row in &ROWS {
        check_finds(&rt, row)?;
    }
    Ok(())
}
