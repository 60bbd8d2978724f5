// What no clause says: command lines and what they ask for, and that requests come at all.
use crate::expected::expect;
use command_line::{Building, NoRequest, Request, requested};
use options::Plan;
use std::alloc::Global;

/// Command lines, with a space between two words, and what they ask for: a command, its one to
/// three names, and its numbers, with 1 for a flag that is given. The numbers of an index are its
/// two error bounds, its workers, and whether its keys are narrow.
static TAKEN: [(&str, &str); 47] = [
    // All defaults, and another command.
    ("pgmtool explain keys", "explain keys, [64, 4, 4, 0, 0, 0]"),
    ("pgmtool build keys", "build keys, [64, 4, 4, 0, 0, 0]"),
    // An option and its number apart and joined.
    (
        "pgmtool explain keys --eps 3",
        "explain keys, [3, 4, 4, 0, 0, 0]",
    ),
    (
        "pgmtool explain keys --eps=3",
        "explain keys, [3, 4, 4, 0, 0, 0]",
    ),
    // Options before the file.
    (
        "pgmtool explain --rec=0 --narrow keys",
        "explain keys, [64, 0, 4, 1, 0, 0]",
    ),
    // Leading zeros, and a plus.
    (
        "pgmtool explain keys --eps 0000000003",
        "explain keys, [3, 4, 4, 0, 0, 0]",
    ),
    (
        "pgmtool explain keys --eps +3",
        "explain keys, [3, 4, 4, 0, 0, 0]",
    ),
    // The least and the greatest bound, and number of workers.
    (
        "pgmtool explain keys --eps 0 --rec 1048576",
        "explain keys, [0, 1048576, 4, 0, 0, 0]",
    ),
    (
        "pgmtool build keys --workers=1",
        "build keys, [64, 4, 1, 0, 0, 0]",
    ),
    (
        "pgmtool explain keys --workers 64",
        "explain keys, [64, 4, 64, 0, 0, 0]",
    ),
    // Only names behind two hyphens.
    (
        "pgmtool explain --eps 1 -- keys",
        "explain keys, [1, 4, 4, 0, 0, 0]",
    ),
    // Of the keys `-`, by the script of no name: whether windows are told, and the bits of a table.
    ("pgmtool query -  --windows", "query -, [64, 4, 4, 0, 1, 0]"),
    (
        "pgmtool query - --buckets 1 --windows ",
        "query -, [64, 4, 4, 0, 1, 1]",
    ),
    (
        "pgmtool query --buckets=20 -  --windows",
        "query -, [64, 4, 4, 0, 1, 20]",
    ),
    // The pieces of a relaxed index.
    (
        "pgmtool relax keys script",
        "relax keys,script [64, 4, 4, 0, 4, 0]",
    ),
    (
        "pgmtool relax keys --pieces=65536 script --eps 0 --narrow",
        "relax keys,script [0, 4, 4, 1, 65536, 0]",
    ),
    (
        "pgmtool relax --pieces +01 --workers 64 --rec 0 -- keys script",
        "relax keys,script [64, 0, 64, 0, 1, 0]",
    ),
    // An index that is saved, and one that is checked.
    ("pgmtool save keys", "save keys, [64, 4, 4, 0, 0, 0]"),
    (
        "pgmtool save --narrow keys --eps=0 --rec 1048576 --workers 64",
        "save keys, [0, 1048576, 64, 1, 0, 0]",
    ),
    (
        "pgmtool check keys index",
        "check keys,index [0, 0, 0, 0, 0, 0]",
    ),
    (
        "pgmtool check --narrow keys index",
        "check keys,index [1, 0, 0, 0, 0, 0]",
    ),
    // How many coordinates a point has.
    (
        "pgmtool box points script",
        "box points,script [2, 0, 0, 0, 0, 0]",
    ),
    (
        "pgmtool box points script --dims=2",
        "box points,script [2, 0, 0, 0, 0, 0]",
    ),
    (
        "pgmtool box --dims 3 points script",
        "box points,script [3, 0, 0, 0, 0, 0]",
    ),
    (
        "pgmtool box points --dims +04 -- script",
        "box points,script [4, 0, 0, 0, 0, 0]",
    ),
    (
        "pgmtool near points script",
        "near points,script [2, 0, 0, 0, 0, 0]",
    ),
    (
        "pgmtool near points --dims=03 script",
        "near points,script [3, 0, 0, 0, 0, 0]",
    ),
    (
        "pgmtool near --dims 4 -- points script",
        "near points,script [4, 0, 0, 0, 0, 0]",
    ),
    // Levels, batch, readers and workers.
    (
        "pgmtool replay script",
        "replay ,script [20, 16, 0, 4, 0, 0]",
    ),
    (
        "pgmtool replay script --levels=1",
        "replay ,script [1, 16, 0, 4, 0, 0]",
    ),
    (
        "pgmtool replay --readers=16 script",
        "replay ,script [20, 16, 16, 4, 0, 0]",
    ),
    (
        "pgmtool replay --batch 65536 script --levels 26",
        "replay ,script [26, 65536, 0, 4, 0, 0]",
    ),
    (
        "pgmtool replay --batch=1 --workers 64 -- script",
        "replay ,script [20, 1, 0, 64, 0, 0]",
    ),
    // The same, and senders.
    ("pgmtool mix script", "mix ,script [20, 16, 0, 4, 2, 0]"),
    (
        "pgmtool mix --senders=16 script --levels 1 --batch 65536",
        "mix ,script [1, 65536, 0, 4, 16, 0]",
    ),
    (
        "pgmtool mix --readers 16 --workers=1 --senders 1 -- script",
        "mix ,script [20, 16, 16, 1, 1, 0]",
    ),
    // The error bound of hints, and whether keys are narrow.
    ("pgmtool hints keys", "hints keys, [32, 0, 0, 0, 0, 0]"),
    (
        "pgmtool hints --narrow keys --eps=0",
        "hints keys, [0, 1, 0, 0, 0, 0]",
    ),
    (
        "pgmtool hints --eps +1048576 -- keys",
        "hints keys, [1048576, 0, 0, 0, 0, 0]",
    ),
    // The keys, the hints, the script, and whether keys are narrow.
    (
        "pgmtool find keys hints script",
        "find keys,hints,script [0, 0, 0, 0, 0, 0]",
    ),
    (
        "pgmtool find keys --narrow hints script",
        "find keys,hints,script [1, 0, 0, 0, 0, 0]",
    ),
    (
        "pgmtool find --narrow -- -a -b -c",
        "find -a,-b,-c [1, 0, 0, 0, 0, 0]",
    ),
    // How many inputs, the seed, the two error bounds and the workers.
    ("pgmtool drill 2 1", "drill , [2, 1, 64, 4, 4, 0]"),
    (
        "pgmtool drill 1 0 --eps 0 --rec 0",
        "drill , [1, 0, 0, 0, 4, 0]",
    ),
    (
        "pgmtool drill --workers=64 1000000 2147483647",
        "drill , [1000000, 2147483647, 64, 4, 64, 0]",
    ),
    (
        "pgmtool drill +07 --rec=1048576 -- 009",
        "drill , [7, 9, 64, 1048576, 4, 0]",
    ),
    (
        "pgmtool drill 1000 7 --eps=1048576 --workers 1",
        "drill , [1000, 7, 1048576, 4, 1, 0]",
    ),
];

/// Command lines that are no command, though each is near one.
static REFUSED: [(&str, &str); 78] = [
    ("no command", "pgmtool"),
    ("a command that isn't there", "pgmtool nothing keys"),
    ("a command's name abbreviated", "pgmtool expl keys"),
    ("no file", "pgmtool explain"),
    ("no script", "pgmtool query keys"),
    ("a file too many", "pgmtool explain keys more"),
    (
        "an option before the command",
        "pgmtool --eps 3 explain keys",
    ),
    (
        "a bound past its range",
        "pgmtool explain keys --eps 1048577",
    ),
    ("a bound below its range", "pgmtool explain keys --eps=-1"),
    ("a bound that is no number", "pgmtool explain keys --eps 3x"),
    ("an option without its number", "pgmtool explain keys --eps"),
    ("an empty number", "pgmtool explain keys --eps="),
    (
        "a hyphen word for a number",
        "pgmtool explain keys --eps -1",
    ),
    ("no worker", "pgmtool explain keys --workers 0"),
    ("too many workers", "pgmtool explain keys --workers 65"),
    ("an option twice", "pgmtool explain keys --eps 3 --eps 3"),
    ("a flag twice", "pgmtool explain keys --narrow --narrow"),
    ("a flag with a value", "pgmtool explain keys --narrow=1"),
    ("an option abbreviated", "pgmtool explain keys --ep 3"),
    ("a short option", "pgmtool explain keys -e 3"),
    (
        "an option of another command",
        "pgmtool explain keys --windows",
    ),
    ("a relaxed index without its script", "pgmtool relax keys"),
    ("no piece", "pgmtool relax keys script --pieces 0"),
    (
        "a piece too many",
        "pgmtool relax keys script --pieces 65537",
    ),
    (
        "windows of a relaxed index",
        "pgmtool relax keys script --windows",
    ),
    ("pieces of a query", "pgmtool query keys script --pieces 4"),
    ("points without boxes", "pgmtool box points"),
    ("one coordinate", "pgmtool box points script --dims 1"),
    ("five coordinates", "pgmtool box points script --dims 5"),
    (
        "an error bound of boxes",
        "pgmtool box points script --eps 3",
    ),
    ("coordinates of a key file", "pgmtool build keys --dims 2"),
    (
        "coordinates told twice",
        "pgmtool box points script --dims 2 --dims 2",
    ),
    ("points without centres", "pgmtool near points"),
    (
        "one coordinate of centres",
        "pgmtool near points script --dims 1",
    ),
    (
        "five coordinates of centres",
        "pgmtool near points script --dims 5",
    ),
    (
        "how many points as an option",
        "pgmtool near points script --k 3",
    ),
    ("a script of centres too many", "pgmtool near points a b"),
    ("a replay without its script", "pgmtool replay"),
    ("a replay of two scripts", "pgmtool replay script script"),
    ("no level", "pgmtool replay script --levels 0"),
    ("a level too many", "pgmtool replay script --levels 27"),
    ("empty batches", "pgmtool replay script --batch 0"),
    (
        "batches past their range",
        "pgmtool replay script --batch 65537",
    ),
    (
        "more readers than there are seats",
        "pgmtool replay script --readers 17",
    ),
    (
        "a number of readers below 0",
        "pgmtool replay script --readers=-1",
    ),
    ("a mix without its script", "pgmtool mix"),
    ("no sender", "pgmtool mix script --senders 0"),
    ("a sender too many", "pgmtool mix script --senders 17"),
    ("senders of a replay", "pgmtool replay script --senders 2"),
    (
        "an error bound of a replay",
        "pgmtool replay script --eps 4",
    ),
    (
        "a table of too many bits",
        "pgmtool query keys script --buckets 21",
    ),
    ("a table to build", "pgmtool build keys --buckets 4"),
    ("hints of no keys", "pgmtool hints"),
    ("hints by a script", "pgmtool hints keys script"),
    (
        "a bound of hints past its range",
        "pgmtool hints keys --eps 1048577",
    ),
    ("a bound above hints", "pgmtool hints keys --rec 4"),
    ("workers of hints", "pgmtool hints keys --workers 2"),
    ("a find without its script", "pgmtool find keys hints"),
    (
        "a file of a find too many",
        "pgmtool find keys hints script more",
    ),
    (
        "an error bound of a find",
        "pgmtool find keys hints script --eps 0",
    ),
    ("a drill of no number", "pgmtool drill"),
    ("a drill without a seed", "pgmtool drill 2"),
    ("a drill of nothing", "pgmtool drill 0 1"),
    ("a drill of too many", "pgmtool drill 1000001 1"),
    ("a seed past its range", "pgmtool drill 2 2147483648"),
    ("a seed below its range", "pgmtool drill 2 -1"),
    ("a seed that is no number", "pgmtool drill 2 one"),
    ("a drill of a file", "pgmtool drill 2 1 keys"),
    ("narrow keys that are drawn", "pgmtool drill 2 1 --narrow"),
    ("help as a command", "pgmtool help"),
    ("help as a command, for another", "pgmtool help explain"),
    ("help as a flag", "pgmtool --help"),
    ("help as a short flag", "pgmtool -h"),
    ("help of a command", "pgmtool explain --help"),
    ("the short help of a command", "pgmtool explain -h"),
    ("the version", "pgmtool --version"),
    ("the version by a short flag", "pgmtool -V"),
    ("the version of a command", "pgmtool explain --version"),
];

/// The words as a program gets them; none where memory wasn't found.
fn words_of(alloc: Global, line: &str) -> Option<Vec<String>> {
    let mut words = Vec::new(alloc);
    for word in line.split(' ') {
        let word = String::from_str(alloc, word).ok()?;
        words.push(word).ok()?;
    }
    Some(words)
}

/// What a request asks for, beside its numbers: its command, and its first names.
fn names_of<'a>(request: Request<'a>) -> (&'a str, &'a str, &'a str) {
    match request {
        Request::Build { building } => ("build", building.file, ""),
        Request::Explain { building } => ("explain", building.file, ""),
        Request::Query {
            building,
            script,
            ..
        } => ("query", building.file, script),
        Request::Relax {
            building,
            script,
            ..
        } => ("relax", building.file, script),
        Request::Box { searching } => ("box", searching.file, searching.script),
        Request::Near { searching } => ("near", searching.file, searching.script),
        Request::Replay { replaying } => ("replay", "", replaying.script),
        Request::Mix { replaying, .. } => ("mix", "", replaying.script),
        Request::Hints { hinting } => ("hints", hinting.file, ""),
        Request::Find { finding } => ("find", finding.file, finding.hints),
        Request::Drill { .. } => ("drill", "", ""),
        Request::Save { building } => ("save", building.file, ""),
        Request::Check { checking } => ("check", checking.file, checking.index),
    }
}

/// Those of an index, and two more.
fn index_numbers(asked: Building<'_>, more: u32, last: u32) -> [u32; 6] {
    let narrow = u32::from(asked.narrow);
    [
        asked.bounds.eps,
        asked.bounds.eps_rec,
        asked.workers.count,
        narrow,
        more,
        last,
    ]
}

/// Those of a plan, and one more.
fn plan_numbers(plan: Plan, more: u32) -> [u32; 6] {
    [
        plan.levels,
        plan.batch,
        plan.readers,
        plan.workers.count,
        more,
        0,
    ]
}

fn numbers_of(request: Request<'_>) -> [u32; 6] {
    match request {
        Request::Build { building } | Request::Explain { building } | Request::Save { building } =>
            index_numbers(building, 0, 0),
        Request::Query {
            building,
            windows,
            table,
            ..
        } => index_numbers(building, u32::from(windows), table.bits),
        Request::Relax {
            building,
            pieces,
            ..
        } => index_numbers(building, pieces.count, 0),
        Request::Box { searching } | Request::Near { searching } => {
            [searching.dims, 0, 0, 0, 0, 0]
        }
        Request::Replay { replaying } => plan_numbers(replaying.plan, 0),
        Request::Mix { replaying, senders } => plan_numbers(replaying.plan, senders.count),
        Request::Hints { hinting } => [hinting.eps, u32::from(hinting.narrow), 0, 0, 0, 0],
        Request::Find { finding } => [u32::from(finding.narrow), 0, 0, 0, 0, 0],
        Request::Drill { drilling: asked } => {
            [
                asked.drill.number,
                asked.drill.seed,
                asked.bounds.eps,
                asked.bounds.eps_rec,
                asked.workers.count,
                0,
            ]
        }
        Request::Check { checking } => [u32::from(checking.narrow), 0, 0, 0, 0, 0],
    }
}

/// The third name, behind a comma, where there is one.
fn last_name<'a>(request: Request<'a>) -> (&'a str, &'a str) {
    match request {
        Request::Find { finding } => (",", finding.script),
        _ => ("", ""),
    }
}

/// Whether a request, as the rows write it, is this.
fn is_told(alloc: Global, request: Request<'_>, asked: &str) -> bool {
    let (command, file, script) = names_of(request);
    let (comma, last) = last_name(request);
    let numbers = numbers_of(request);
    match format!(in alloc; "{command} {file},{script}{comma}{last} {numbers:?}") {
        Ok(told) => told.as_str() == asked,
        Err(_) => false,
    }
}

/// Whether a line asks for this, or why it is no request.
fn reading(alloc: Global, line: &str, asked: &str) -> Option<Result<bool, NoRequest>> {
    let words = words_of(alloc, line)?;
    match requested(alloc, &words) {
        Ok(request) => Some(Ok(is_told(alloc, request, asked))),
        Err(refused) => Some(Err(refused)),
    }
}

#[test]
fn lines_ask_for_their_command(rt: HostRuntime) {
    for (line, asked) in &TAKEN {
        let found = reading(rt.alloc(), line, asked);
        expect(&rt, *line, found, Some(Ok(true)));
    }
}

#[test]
fn other_lines_are_no_command(rt: HostRuntime) {
    for (name, line) in &REFUSED {
        let found = reading(rt.alloc(), line, "");
        expect(&rt, *name, found, Some(Err(NoRequest::Usage)));
    }
}
