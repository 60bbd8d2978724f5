// The index that handles share.
ghost use Rattle.std.specs.Prelude.{◌≡◌, IfOk};
ghost use Rattle.levels.specs.Indexes.{IsIndex};

use budget::NoMemory;
use levels::Index;
use std::alloc::Global;
use std::marker::Model;
use std::sync::Arc;

/// An index that handles share, seen as the index. It is the one of its keys and error bounds.
#[derive(Drop)]
pub struct KeptIndex {
    index: Arc<Index>,
}

impl Model for KeptIndex {
    ghost use Rattle.levels.specs.Indexes.{PgmIndex, IsIndex};

    ghost Value = { PgmIndex };

    ghost view = { λ kept. kept.index.value };

    ghost invariant = { λ kept. IsIndex kept.index.value.keys kept.index.value.eps
        kept.index.value.eps_rec kept.index.value.levels };
}

impl KeptIndex {
    /// An index, kept to be shared.
    ///
    /// # Errors
    ///
    /// `NoMemory` alone.
    pub(crate) fn of(alloc: Global, index: Index) -> Result<KeptIndex, NoMemory>
        requires { IsIndex index.keys index.eps index.eps_rec index.levels }
        ensures { IfOk result (λ kept. kept ≡ index) }
    {
        match Arc::new(alloc, index) {
            Ok(index) => Ok(KeptIndex { index }),
            Err(_) => Err(NoMemory),
        }
    }

    /// One more handle of the index.
    ///
    /// # Errors
    ///
    /// `NoMemory` alone, where it has 2^63 handles.
    pub(crate) fn share(&self) -> Result<KeptIndex, NoMemory>
        ensures { IfOk result (λ kept. kept ≡ self.now) }
    {
        let index = Arc::try_clone(&self.index)?;
        Ok(KeptIndex { index })
    }

    /// The index.
    #[inline(always)]
    pub(crate) fn index(&self) -> &Index
        ensures index { result.now ≡ self.now }
        ensures one { IsIndex self.now.keys self.now.eps self.now.eps_rec self.now.levels }
    {
        &self.index
    }
}
