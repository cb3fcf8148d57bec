//! Lists of lists that grow at their ends.

ghost use Rattle.std.specs.Prelude.{◌≡◌, ℕ, ◌<◌, [], ◌∷◌, ◌++◌, length, if◌then◌else◌, ◌==◌, IfOk, OnOk, IsOkUnless};
ghost use Rattle.page.specs.declared.fault.Fault.TheVariants.{NoResource};
ghost use Rattle.redo.specs.Lists.{list_at};

use page::Fault;
use std::alloc::Global;

/// `count` empty lists. The only error is `NoResource`.
pub fn empty_lists<T: Drop>(alloc: Global, count: usize) -> Result<Vec<Vec<T>>, Fault>
    ensures count { IfOk result (λ lists. length lists.items ≡ count) }
    ensures empty { IfOk result (λ lists. (k : ℕ) → list_at lists.items k ≡ []) }
    ensures err { IsOkUnless result NoResource }
{
    let mut lists = Vec::new(alloc);
    for _ in 0..count {
        lists.push(Vec::new(alloc))?;
    }
    Ok(lists)
}

/// How many items the list at an index has.
pub fn len_at<T>(lists: &[Vec<T>], index: usize) -> usize
    requires { index < length lists.now }
    ensures { result ≡ length (list_at lists.now index) }
{
    lists[index].len()
}

/// Adds an item at the end of the list at an index. The only error is `NoResource`.
pub fn push_to<T: Drop>(lists: &mut [Vec<T>], index: usize, item: T) -> Result<(), Fault>
    requires { index < length lists.old }
    ensures count { length lists.new ≡ length lists.old }
    ensures ok { OnOk result ((k : ℕ) → list_at lists.new k
        ≡ (if k == index then list_at lists.old k ++ item ∷ [] else list_at lists.old k)) }
    ensures err { IsOkUnless result NoResource }
{
    lists[index].push(item)?;
    Ok(())
}
