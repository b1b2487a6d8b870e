// The edits of one statement.
ghost use Rattle.std.specs.Prelude.{◌≡◌, map, IfOk, OnOk};
ghost use Rattle.json_tree.specs.View.{tree_of};
ghost use Rattle.tree_model.specs.Edit.{set_all, replace_all, remove_all, edited};
ghost use Rattle.json_edit.specs.Edits.{assigned, edit_of};

use crate::{Edit, Pair, remove, replace, set};
use json_path::Path;
use json_tree::Json;
use std::alloc::{AllocError, Global};

/// The tree behind a statement's edits, made from left to right on a copy. What is lent stays as it
/// is, also where memory runs out.
pub fn edit_all(alloc: Global, tree: &Json, edit: &Edit) -> Result<Json, AllocError>
    ensures { IfOk result (λ after. tree_of after ≡ edited (edit_of edit.now) (tree_of tree.now)) }
{
    let mut after = tree.copy(alloc)?;
    match edit {
        Edit::Set(pairs) => set_all(alloc, &mut after, pairs.as_slice())?,
        Edit::Replace(pairs) => replace_all(alloc, &mut after, pairs.as_slice())?,
        Edit::Remove(paths) => remove_all(&mut after, paths.as_slice()),
    }
    Ok(after)
}

fn set_all(alloc: Global, tree: &mut Json, pairs: &[Pair]) -> Result<(), AllocError>
    ensures { OnOk result (tree_of tree.new ≡ set_all (map assigned pairs.now) (tree_of tree.old)) }
{
    for pair in pairs {
        let value = pair.value.copy(alloc)?;
        set(alloc, tree, &pair.path, value)?;
    }
    Ok(())
}

fn replace_all(alloc: Global, tree: &mut Json, pairs: &[Pair]) -> Result<(), AllocError>
    ensures { OnOk result (tree_of tree.new
        ≡ replace_all (map assigned pairs.now) (tree_of tree.old)) }
{
    for pair in pairs {
        let value = pair.value.copy(alloc)?;
        replace(tree, &pair.path, value);
    }
    Ok(())
}

fn remove_all(tree: &mut Json, paths: &[Path])
    ensures { tree_of tree.new ≡ remove_all paths.now (tree_of tree.old) }
{
    for path in paths {
        remove(tree, path);
    }
}
