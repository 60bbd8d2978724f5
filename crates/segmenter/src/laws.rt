// What holds of each list of points.
ghost use Rattle.std.specs.Prelude.{ℕ, ◌≤◌, List};
ghost use Rattle.exact_cross.specs.declared.segment.Segment.{Segment};
ghost use Rattle.exact_cross.specs.Points.{Points, IsAscending};
ghost use Rattle.exact_cross.specs.Segmentation.{IsSegmentation};

/// Each range of points has a segmentation, whatever the error bound: there is a list of segments
/// that are greedy, steep and have their cuts.
pub fn some_segmentation()
    ensures { (p : Points) (eps from to : ℕ) → IsAscending p → from ≤ to → to ≤ p.count →
        (segments : List Segment) × IsSegmentation p eps from to segments }
{}
