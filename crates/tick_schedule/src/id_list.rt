ghost use Rattle.std.specs.Prelude.{◌≡◌, ◌↔◌, ◌<◌, ◌∷◌, ◌++◌, [], length, IsTrue, IfOk, OnErr};
ghost use Rattle.tick_schedule.specs.Lists.{Removes};

use list_laws::Memory;
use std::alloc::Global;
use std::marker::Model;

/// Ids in no order.
#[derive(Drop)]
pub(crate) struct IdList {
    ids: Vec<usize>,
}

impl Model for IdList {
    ghost use Rattle.std.specs.Prelude.{ℕ, List};

    ghost Value = { List ℕ };

    ghost view = { λ list. list.ids.items };
}

impl IdList {
    /// The list of one id.
    pub(crate) fn of(alloc: Global, id: usize) -> Result<IdList, Memory>
        ensures { IfOk result (λ list. list ≡ id ∷ []) }
    {
        let mut ids = Vec::new(alloc);
        ids.push(id)?;
        Ok(IdList { ids })
    }

    /// Adds the id, and gives its index.
    pub(crate) fn push(&mut self, id: usize) -> Result<usize, Memory>
        ensures ok { IfOk result (λ index. (index ≡ length self.old)
            × (self.new ≡ self.old ++ id ∷ [])) }
        ensures err { OnErr result (self.new ≡ self.old) }
    {
        let index = self.ids.len();
        self.ids.push(id)?;
        Ok(index)
    }

    /// Removes the id at the index. The last id comes to that index, and is the answer, unless it was there.
    pub(crate) fn remove(&mut self, index: usize) -> Option<usize>
        requires { index < length self.old }
        ensures { Removes self.old self.new index result }
    {
        self.ids.swap_remove(index);
        if index < self.ids.len() {
            Some(self.ids[index])
        } else {
            None
        }
    }

    pub(crate) fn is_empty(&self) -> bool
        ensures { IsTrue result ↔ (self.now ≡ []) }
    {
        self.ids.is_empty()
    }

    pub(crate) fn as_slice(&self) -> &[usize]
        ensures { result.now ≡ self.now }
    {
        self.ids.as_slice()
    }
}
