// Whether keys repeat.
ghost use Rattle.std.specs.Prelude.{◌≡◌, length};
ghost use Rattle.key_points.specs.KeyPoints.{distinct_of};

/// How many keys there are without repeats: those that differ from the one before them. Cannot fail
/// and takes no memory.
pub fn count_distinct(file: &[u64]) -> usize
    ensures { result ≡ length (distinct_of file.now) }
{
    let mut count = file.len().min(1);
    for i in 1..file.len() {
        if file[i] != file[i - 1] {
            count += 1;
        }
    }
    count
}
