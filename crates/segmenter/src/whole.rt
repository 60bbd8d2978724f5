// One run of all places, by a guess that is then checked.
ghost use Rattle.std.specs.Prelude.{◌≡◌, ℕ, ◌+◌, ◌-◌, ◌*◌, ◌^◌, ◌<◌, ◌≤◌, length, IfSome};
ghost use Rattle.std.specs.Bool.{OnTrue, OnFalse};
ghost use Rattle.exact_cross.specs.PointLists.{points_in};
ghost use Rattle.exact_cross.specs.Steep.{line_of_pair};
ghost use Rattle.segmenter.specs.Whole.{IsWhole, AreExtremes, IsBetween, height};

use budget::Steps;
use exact_cross::{Line, MAX_EPSILON, PointList, Segment, Slope};
use std::cmp::Ordering;
use std::sync::ledger::Ledger;

/// Fewer places than these aren't tried, since most tests would go into the guess.
const TRIED_FROM_PLACES: u32 = 48;

/// More places than these aren't tried, since they are mostly several runs.
const TRIED_TO_PLACES: u32 = 8192;

/// How many places at each end are tried for the first pair.
const PLACES_AT_AN_END: u32 = 6;

/// How many tests the guess takes: six that see whether it is worth while, and those of the ends.
const GUESS: u32 = 6 + 2 * PLACES_AT_AN_END;

/// How many pairs are tried.
const TRIED_PAIRS: u32 = 8;

/// How many places are passed at once where none of them can matter, and else how many of these.
const BLOCK: u32 = 16;

const PART: u32 = 4;

/// The one segment of the places `from..to`, where it is soon found that one line fits them all.
///
/// The pair of a line is the steep pair where no place lies higher beside the line than the pair's
/// lower one, and none lower than its upper one. So all places are looked at beside a pair's line,
/// and those that lie highest and lowest are the next pair, whose slope is less, until they are the
/// pair itself. Of points that rise none lies higher than the first x of theirs with the last y, so
/// most are passed in blocks. `None` tells nothing. It takes at most two steps for each place,
/// which are tests of a point against a line and comparisons of two slopes, and no memory.
///
/// Source: Dinkelbach, Management Science 13(7), 1967.
pub fn whole_run<L: Ledger>(
    points: PointList<'_>,
    eps: u32,
    from: u32,
    to: u32,
    steps: &mut Steps<L>,
) -> Option<Segment>
    requires bounded { eps ≤ MAX_EPSILON }
    requires range { from ≤ to }
    requires within { to ≤ length points.xs.now }
    ensures whole { IfSome result (IsWhole (points_in points.entry) eps from to) }
    ensures cost { steps.new ≤ steps.old + 2 * (to - from) }
{
    let count = to - from;
    if count < TRIED_FROM_PLACES || count > TRIED_TO_PLACES {
        return None;
    }
    if !may_fit(points, eps, from, to, steps) {
        return None;
    }
    let (mut a, mut b) = pair_at_ends(points, eps, from, to, steps);
    let mut left = 2 * count - GUESS;
    for _ in 0..TRIED_PAIRS {
        let mut found = Extremes::of(points, eps, a, b, left);
        if !found.go_over(points, from, to, steps) {
            return None;
        }
        if found.bottom <= found.top {
            return None;
        }
        if found.top == a && found.bottom == b {
            return Some(Segment {
                start: from,
                a,
                b,
                line: found.line,
                cut: None,
            });
        }
        a = found.top;
        b = found.bottom;
        left = found.left;
    }
    None
}

/// Whether three places between the ends lie so near to the line through the ends that one line may
/// fit all places. It decides nothing. It takes six steps at most: each of the three is tested
/// against two lines.
fn may_fit<L: Ledger>(
    points: PointList<'_>,
    eps: u32,
    from: u32,
    to: u32,
    steps: &mut Steps<L>,
) -> bool
    requires bounded { eps ≤ MAX_EPSILON }
    requires some { from + TRIED_FROM_PLACES ≤ to }
    requires few { to ≤ from + TRIED_TO_PLACES }
    requires within { to ≤ length points.xs.now }
    ensures cost { steps.new ≤ steps.old + 6 }
{
    let last = (to - 1) as usize;
    let first = from as usize;
    let quarter = (to - from) / 4;
    let rise = u64::from(points.ys[last] - points.ys[first]);
    let run = points.xs[last] - points.xs[first];
    let far = u128::from((2 * eps).min(quarter)) * u128::from(run);
    let chord = height(rise, run, points.xs[first], points.ys[first]);
    for i in 1..4 {
        let place = (from + i * quarter) as usize;
        let other = height(rise, run, points.xs[place], points.ys[place]);
        steps.tick();
        steps.tick();
        if other > chord + far || chord > other + far {
            return false;
        }
    }
    true
}

/// A pair whose lower place is one of the first places and whose upper place is one of the last:
/// for the first place the upper one of the least slope, and for that the lower one. It decides
/// nothing. It takes two steps for each place at an end.
fn pair_at_ends<L: Ledger>(
    points: PointList<'_>,
    eps: u32,
    from: u32,
    to: u32,
    steps: &mut Steps<L>,
) -> (u32, u32)
    requires bounded { eps ≤ MAX_EPSILON }
    requires some { from + TRIED_FROM_PLACES ≤ to }
    requires within { to ≤ length points.xs.now }
    ensures from_start { from ≤ result.0 }
    ensures rises { result.0 < result.1 }
    ensures to_end { result.1 < to }
    ensures cost { steps.new ≤ steps.old + 2 * PLACES_AT_AN_END }
{
    let mut high = to - 1;
    for i in 1..PLACES_AT_AN_END + 1 {
        let other = to - 1 - i;
        if is_less_steep(points, eps, (from, other), (from, high), steps) {
            high = other;
        }
    }
    let mut low = from;
    for i in 1..PLACES_AT_AN_END + 1 {
        let other = from + i;
        if is_less_steep(points, eps, (other, high), (low, high), steps) {
            low = other;
        }
    }
    (low, high)
}

/// Whether the slope from `eps` below the first place of a pair to `eps` above its second is less
/// than that of another pair.
fn is_less_steep<L: Ledger>(
    points: PointList<'_>,
    eps: u32,
    pair: (u32, u32),
    other: (u32, u32),
    steps: &mut Steps<L>,
) -> bool
    requires bounded { eps ≤ MAX_EPSILON }
    requires pair { pair.0 < pair.1 }
    requires pair_inside { pair.1 < length points.xs.now }
    requires other { other.0 < other.1 }
    requires other_inside { other.1 < length points.xs.now }
    ensures step { steps.new ≡ steps.old + 1 }
{
    steps.tick();
    let slope = steep_slope(points, eps, pair.0, pair.1);
    let slope_of_other = steep_slope(points, eps, other.0, other.1);
    slope.cmp(&slope_of_other) == Ordering::Less
}

fn steep_slope(points: PointList<'_>, eps: u32, a: u32, b: u32) -> Slope
    requires bounded { eps ≤ MAX_EPSILON }
    requires rises { a < b }
    requires inside { b < length points.xs.now }
    ensures run { 1 ≤ result.run }
{
    let rise = i64::from(points.ys[b as usize]) + i64::from(2 * eps)
        - i64::from(points.ys[a as usize]);
    let run = points.xs[b as usize] - points.xs[a as usize];
    Slope { rise, run }
}

/// How high a point lies beside lines of a slope: the product of its distance from any of them and
/// their run, up to a summand that is the same for all points.
#[inline(always)]
fn height(rise: u64, run: u64, x: u64, y: u32) -> u128
    requires low { rise < 2 ^ 34 }
    ensures height { result ≡ height rise run x y }
    ensures small { result < 2 ^ 99 }
{
    u128::from(y) * u128::from(run) + u128::from(rise) * u128::from(u64::MAX - x)
}

/// Whether the upper height is greater than the lower one, or the same and its place the first.
#[inline(always)]
fn comes_first(lower: u128, upper: u128, place: u32, other: u32) -> bool
    ensures above { OnTrue result (lower ≤ upper) }
    ensures before { OnTrue result (lower ≡ upper → place < other) }
    ensures not_above { OnFalse result (upper ≤ lower) }
    ensures not_before { OnFalse result (lower ≡ upper → other ≤ place) }
{
    lower < upper || (lower == upper && place < other)
}

/// Which of the places that were looked at lie highest and lowest beside a pair's line.
#[derive(Clone, Copy)]
pub struct Extremes {
    /// The line of the pair that was guessed.
    pub line: Line,
    /// The first place that lies highest.
    pub top: u32,
    /// How high it lies.
    pub top_height: u128,
    /// The first place that lies lowest.
    pub bottom: u32,
    /// How high it lies.
    pub bottom_height: u128,
    /// How many tests may still be made.
    pub left: u32,
}

impl Extremes {
    /// No place looked at beside the line of this pair but the pair itself.
    #[inline(always)]
    fn of(points: PointList<'_>, eps: u32, a: u32, b: u32, left: u32) -> Extremes
        requires bounded { eps ≤ MAX_EPSILON }
        requires rises { a < b }
        requires inside { b < length points.xs.now }
        ensures line { result.line ≡ line_of_pair (points_in points.entry) eps a b }
        ensures low { result.line.rise < 2 ^ 34 }
        ensures none { (s e : ℕ) → s ≤ a → b < e →
            AreExtremes (points_in points.entry) s e s result }
        ensures left { result.left ≡ left }
    {
        let (x, y) = (points.xs[a as usize], points.ys[a as usize]);
        let (x_high, y_high) = (points.xs[b as usize], points.ys[b as usize]);
        let line = Line {
            x0: x,
            y0: i64::from(y) - i64::from(eps),
            rise: u64::from(y_high) + 2 * u64::from(eps) - u64::from(y),
            run: x_high - x,
        };
        Extremes {
            line,
            top: a,
            top_height: height(line.rise, line.run, x, y),
            bottom: b,
            bottom_height: height(line.rise, line.run, x_high, y_high),
            left,
        }
    }

    /// Looks at the places `from..to`. `false` where the tests that were left don't suffice.
    fn go_over<L: Ledger>(
        &mut self,
        points: PointList<'_>,
        from: u32,
        to: u32,
        steps: &mut Steps<L>,
    ) -> bool
        requires low { self.old.line.rise < 2 ^ 34 }
        requires range { from ≤ to }
        requires within { to ≤ length points.xs.now }
        requires none { AreExtremes (points_in points) from to from self.old }
        ensures all { OnTrue result (AreExtremes (points_in points.entry) from to to self.new) }
        ensures line { self.new.line ≡ self.old.line }
        ensures cost { steps.new + self.new.left ≡ steps.old + self.old.left }
    {
        let mut at = from;
        while at < to {
            let end = at + BLOCK.min(to - at);
            if !self.pass_block(points, at, end, steps) {
                return false;
            }
            at = end;
        }
        true
    }

    /// Looks at the next places, no more than a block. `false` where the tests that were left don't
    /// suffice.
    #[inline(always)]
    fn pass_block<L: Ledger>(
        &mut self,
        points: PointList<'_>,
        from: u32,
        to: u32,
        steps: &mut Steps<L>,
    ) -> bool
        requires low { self.old.line.rise < 2 ^ 34 }
        requires some { from < to }
        requires within { to ≤ length points.xs.now }
        ensures more { OnTrue result ((s e : ℕ) → s ≤ from → to ≤ e →
            AreExtremes (points_in points.entry) s e from self.old →
            AreExtremes (points_in points.entry) s e to self.new) }
        ensures line { self.new.line ≡ self.old.line }
        ensures cost { steps.new + self.new.left ≡ steps.old + self.old.left }
    {
        if self.left < 2 {
            return false;
        }
        if self.are_between(points, from, to, steps) {
            return true;
        }
        let mut at = from;
        while at < to {
            let end = at + PART.min(to - at);
            if !self.pass_part(points, at, end, steps) {
                return false;
            }
            at = end;
        }
        true
    }

    /// Looks at a part of a block, place by place where it isn't passed at once. `false` where the
    /// tests that were left don't suffice.
    #[inline(always)]
    fn pass_part<L: Ledger>(
        &mut self,
        points: PointList<'_>,
        from: u32,
        to: u32,
        steps: &mut Steps<L>,
    ) -> bool
        requires low { self.old.line.rise < 2 ^ 34 }
        requires some { from < to }
        requires short { to ≤ from + PART }
        requires within { to ≤ length points.xs.now }
        ensures more { OnTrue result ((s e : ℕ) → s ≤ from → to ≤ e →
            AreExtremes (points_in points.entry) s e from self.old →
            AreExtremes (points_in points.entry) s e to self.new) }
        ensures line { self.new.line ≡ self.old.line }
        ensures cost { steps.new + self.new.left ≡ steps.old + self.old.left }
    {
        if self.left < 2 + 2 * (to - from) {
            return false;
        }
        if self.are_between(points, from, to, steps) {
            return true;
        }
        for place in from..to {
            self.look_at(points, place, steps);
        }
        true
    }

    /// Whether all places `from..to` surely lie below the highest place and above the lowest one.
    #[inline(always)]
    fn are_between<L: Ledger>(
        &mut self,
        points: PointList<'_>,
        from: u32,
        to: u32,
        steps: &mut Steps<L>,
    ) -> bool
        requires low { self.old.line.rise < 2 ^ 34 }
        requires left { 2 ≤ self.old.left }
        requires some { from < to }
        requires within { to ≤ length points.xs.now }
        ensures between { OnTrue result
            (IsBetween (points_in points.entry) from to self.old) }
        ensures same { self.new ≡ record {
          line = self.old.line;
          top = self.old.top;
          top_height = self.old.top_height;
          bottom = self.old.bottom;
          bottom_height = self.old.bottom_height;
          left = self.old.left - 2;
        } }
        ensures steps { steps.new ≡ steps.old + 2 }
    {
        let (first, last) = (from as usize, (to - 1) as usize);
        self.left -= 2;
        steps.tick();
        let highest = height(
            self.line.rise,
            self.line.run,
            points.xs[first],
            points.ys[last],
        );
        steps.tick();
        let lowest = height(
            self.line.rise,
            self.line.run,
            points.xs[last],
            points.ys[first],
        );
        highest < self.top_height && self.bottom_height < lowest
    }

    /// Looks at the next place: whether it lies above the highest one, and whether below the
    /// lowest.
    #[inline(always)]
    fn look_at<L: Ledger>(&mut self, points: PointList<'_>, place: u32, steps: &mut Steps<L>)
        requires low { self.old.line.rise < 2 ^ 34 }
        requires left { 2 ≤ self.old.left }
        requires inside { place < length points.xs.now }
        ensures more { (s e : ℕ) → s ≤ place → place < e →
            AreExtremes (points_in points.entry) s e place self.old →
            AreExtremes (points_in points.entry) s e (place + 1) self.new }
        ensures line { self.new.line ≡ self.old.line }
        ensures left { self.new.left + 2 ≡ self.old.left }
        ensures steps { steps.new ≡ steps.old + 2 }
    {
        self.left -= 2;
        steps.tick();
        steps.tick();
        let (x, y) = (points.xs[place as usize], points.ys[place as usize]);
        let height = height(self.line.rise, self.line.run, x, y);
        if comes_first(self.top_height, height, place, self.top) {
            self.top = place;
            self.top_height = height;
        }
        if comes_first(height, self.bottom_height, place, self.bottom) {
            self.bottom = place;
            self.bottom_height = height;
        }
    }
}
