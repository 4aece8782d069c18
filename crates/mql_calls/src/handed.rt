//! What is handed over to functions.
ghost use Rattle.std.specs.Prelude.{◌≡◌, ℕ, ◌+◌, [], ◌∷◌, ◌++◌, IfOk};
ghost use Rattle.mql_calls.specs.Nodes.{all_kept};

use fx8::{ItemList, OutOfMemory, Stack};
use mql_meaning::{Expression, VarType};
use mql_typed::Info;
use std::alloc::Global;

/// An expression, and the locals that it takes.
pub(crate) type Value = (Expression, ItemList<VarType>);

/// Expressions that are handed over, and the locals that they and others take.
#[derive(Drop)]
pub(crate) struct Handed {
    pub parts: ItemList<Expression>,
    pub kept: ItemList<VarType>,
}

impl Handed {
    /// Nothing that is handed over.
    pub fn new(alloc: Global) -> Handed
        ensures parts { result.parts ≡ [] }
        ensures kept { result.kept ≡ [] }
    {
        Handed {
            parts: ItemList::new(alloc),
            kept: ItemList::new(alloc),
        }
    }

    /// With one more value.
    pub fn with(self, value: Value) -> Result<Handed, OutOfMemory>
        ensures parts { IfOk result (λ r. r.parts ≡ self.parts ++ value.0 ∷ []) }
        ensures kept { IfOk result (λ r. r.kept ≡ self.kept ++ value.1) }
    {
        let Handed {
            mut parts,
            mut kept,
        } = self;
        let (e, more) = value;
        parts.push(e)?;
        kept.append(more)?;
        Ok(Handed { parts, kept })
    }

    /// With the locals alone that some values take.
    pub fn keeping(self, infos: Stack<Info>) -> Result<Handed, OutOfMemory>
        ensures parts { IfOk result (λ r. r.parts ≡ self.parts) }
        ensures kept { IfOk result (λ r. r.kept ≡ self.kept ++ all_kept infos) }
    {
        let Handed { parts, kept } = self;
        let kept = with_kept(kept, infos)?;
        Ok(Handed { parts, kept })
    }
}

/// Locals with those that some values take.
pub(crate) fn with_kept(
    kept: ItemList<VarType>,
    infos: Stack<Info>,
) -> Result<ItemList<VarType>, OutOfMemory>
    ensures { IfOk result (λ r. r ≡ kept ++ all_kept infos) }
{
    let mut all = kept;
    let mut left = infos;
    while let Some(i) = left.pop() {
        let Info { kept: more, .. } = i;
        all.append(more)?;
    }
    Ok(all)
}

/// What is lent where an expression stands, and the locals that it takes.
pub(crate) fn lent(i: Info) -> Value
    ensures value { result.0 ≡ i.typed }
    ensures kept { result.1 ≡ i.kept }
{
    let Info { typed, kept, .. } = i;
    (typed, kept)
}

/// The number behind a place; there is no memory for places without a number.
pub(crate) fn next_place(k: u32) -> Result<u32, OutOfMemory>
    ensures { IfOk result (λ n. n ≡ k + 1) }
{
    match k.checked_add(1) {
        None => Err(OutOfMemory),
        Some(n) => Ok(n),
    }
}
