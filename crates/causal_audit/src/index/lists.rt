//! Numbered lists of positions.
ghost use Rattle.std.specs.Prelude.{◌≡◌, ◌<◌, [], IfOk, OnOk, vec_len};
ghost use Rattle.std.specs.List.{All};
ghost use Rattle.causal_audit.specs.Inside.Index.Lists.{lists_in, with_added};

use causal_name::NoMemory;
use std::alloc::Global;

/// Returns the given number of empty lists.
///
/// # Errors
/// `NoMemory` if allocation fails.
pub fn empty_lists(alloc: Global, count: u32) -> Result<Vec<Vec<u32>>, NoMemory>
    ensures count { IfOk result (λ lists. vec_len lists ≡ count) }
    ensures empty { IfOk result (λ lists. All (λ list. list.items ≡ []) lists.items) }
{
    let mut lists = Vec::new(alloc);
    for _ in 0..count {
        lists.push(Vec::new(alloc))?;
    }
    Ok(lists)
}

/// Appends a position to one of the lists.
///
/// # Errors
/// `NoMemory` if allocation fails.
pub fn push_to_list(lists: &mut Vec<Vec<u32>>, number: usize, position: u32) -> Result<(), NoMemory>
    requires { number < vec_len lists.old }
    ensures added { OnOk result (lists_in lists.new.items ≡
        with_added (lists_in lists.old.items) number position) }
    ensures count { vec_len lists.new ≡ vec_len lists.old }
{
    lists[number].push(position)?;
    Ok(())
}
