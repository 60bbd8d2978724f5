// Calls by the names that papers of the field use.
ghost use Rattle.std.specs.Prelude.{◌≡◌, ◌<◌, IfOk, length};
ghost use Rattle.exact_cross.specs.IndexLevels.{level_at};
ghost use Rattle.levels.specs.Indexes.{xs_at, ys_at};

use crate::index::Index;
use budget::NoMemory;
use exact_cross::Segment;
use std::alloc::Global;

impl Index {
    /// How many levels there are: [`Index::level_count`] by the name that papers use.
    #[inline(always)]
    pub fn levels(&self) -> u32
        ensures { result ≡ length self.now.levels }
    {
        self.level_count()
    }

    /// The segments of level `i`: [`Index::segments`] by the name that papers use.
    #[inline(always)]
    pub fn level(&self, i: u32) -> &[Segment]
        requires { i < length self.now.levels }
        ensures { result.now ≡ level_at self.now.levels i }
    {
        self.segments(i)
    }

    /// The x of level `i`: [`Index::xs`] by the name that papers use.
    ///
    /// # Errors
    ///
    /// `NoMemory` alone.
    pub fn list(&self, alloc: Global, i: u32) -> Result<Vec<u64>, NoMemory>
        requires { i < length self.now.levels }
        ensures { IfOk result (λ xs. xs.items ≡ xs_at self.now.keys self.now.levels i) }
    {
        self.xs(alloc, i)
    }

    /// The y of level `i`: [`Index::ys`] by the name that papers use.
    ///
    /// # Errors
    ///
    /// `NoMemory` alone.
    pub fn ranks(&self, alloc: Global, i: u32) -> Result<Vec<u32>, NoMemory>
        requires { i < length self.now.levels }
        ensures { IfOk result (λ ys. ys.items ≡ ys_at self.now.keys self.now.levels i) }
    {
        self.ys(alloc, i)
    }
}
