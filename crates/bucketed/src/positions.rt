// The positions of many questions.
ghost use Rattle.std.specs.Prelude.{◌≡◌, ◌+◌, ◌++◌, ◌≤◌};
ghost use Rattle.std.specs.Prelude.{length, map, vec_len, vec_capacity};
ghost use Rattle.window_search.specs.Searches.{lb};

use crate::Buckets;
use key_search::LANES;

impl<'a> Buckets<'a> {
    /// The position of each question in the file, in order, behind what the list has: how many keys
    /// of the file are below the question.
    ///
    /// The list has room for as many more. The searches of sixteen questions are interleaved, for
    /// their runs and then for their positions, so that their reads of memory don't wait for one
    /// another. Cannot fail and takes no memory.
    pub fn positions(&self, qs: &[u64], into: &mut Vec<u32>)
        requires room { vec_len into.old + length qs.now ≤ vec_capacity into.old }
        ensures positions { into.new.items
            ≡ into.old.items ++ map (lb self.now.index.keys) qs.now }
        ensures capacity { vec_capacity into.old ≤ vec_capacity into.new }
    {
        let mut rest = qs;
        while rest.len() >= LANES {
            let (block, later) = rest.split_at(LANES);
            self.push_block(block, into);
            rest = later;
        }
        self.push_each(rest, into);
    }

    /// The positions of questions, one after the other.
    fn push_each(&self, qs: &[u64], into: &mut Vec<u32>)
        requires room { vec_len into.old + length qs.now ≤ vec_capacity into.old }
        ensures positions { into.new.items
            ≡ into.old.items ++ map (lb self.now.index.keys) qs.now }
        ensures capacity { vec_capacity into.old ≤ vec_capacity into.new }
    {
        for q in qs {
            into.push_reserved(self.position(*q));
        }
    }

    /// The positions of sixteen questions, whose searches are interleaved.
    #[inline(always)]
    fn push_block(&self, qs: &[u64], into: &mut Vec<u32>)
        requires sixteen { length qs.now ≡ 16 }
        requires room { vec_len into.old + length qs.now ≤ vec_capacity into.old }
        ensures positions { into.new.items
            ≡ into.old.items ++ map (lb self.now.index.keys) qs.now }
        ensures capacity { vec_capacity into.old ≤ vec_capacity into.new }
    {
        let (mut asked, mut least, mut most) = ([0; LANES], [0; LANES], [0; LANES]);
        for lane in 0..LANES {
            let (low, high) = self.begun_between(qs[lane]);
            asked[lane] = qs[lane];
            least[lane] = low;
            most[lane] = high;
        }
        let mut places = [0; LANES];
        let index = self.index();
        index.lower_bounds_between(&asked, &least, &most, &mut places);
        for place in &places {
            into.push_reserved(*place);
        }
    }
}
