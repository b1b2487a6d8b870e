// What the edits of one statement ask for.
ghost use Rattle.std.specs.Prelude.{◌≡◌, ◌≤◌, ◌<◌, length, map};
ghost use Rattle.std.specs.List.{AllByRecursion};
ghost use Rattle.json_edit.specs.Edits.{assigned, HasLeg};

use json_path::Path;
use json_tree::Json;
use std::marker::Model;

/// A path, and the value that it gets.
#[derive(Drop)]
pub struct Pair {
    pub path: Path,
    pub value: Json,
}

/// The pairs of one statement, 1 to 256.
#[derive(Drop)]
pub struct Pairs {
    items: Vec<Pair>,
}

/// The paths of one removal, 1 to 256, each with a leg.
#[derive(Drop)]
pub struct Paths {
    items: Vec<Path>,
}

/// The edits of one statement, which are made from left to right.
#[derive(Drop)]
pub enum Edit {
    /// JSON_SET: replaces or adds.
    Set(Pairs),
    /// JSON_REPLACE: replaces alone.
    Replace(Pairs),
    /// JSON_REMOVE.
    Remove(Paths),
}

impl Model for Pairs {
    ghost use Rattle.std.specs.Prelude.{map, List as Seq, length};
    ghost use Rattle.tree_model.specs.Tree.{Tree};
    ghost use Rattle.tree_model.specs.Path.{Path as ModelPath};
    ghost use Rattle.json_edit.specs.EditCode.{pairs_code};

    ghost Value = { Seq (ModelPath × Tree) };

    ghost coded = { pairs_code };

    ghost use Rattle.json_edit.specs.Edits.{assigned, IsCount};

    ghost view = { λ a. map assigned a.items.items };

    ghost invariant = { λ a. IsCount (length a.items.items) };
}

impl Model for Paths {
    ghost use Rattle.std.specs.Prelude.{List as Seq, length};
    ghost use Rattle.std.specs.List.{AllByRecursion};
    ghost use Rattle.tree_model.specs.Path.{Path as ModelPath};
    ghost use Rattle.json_edit.specs.EditCode.{paths_code};

    ghost Value = { Seq ModelPath };

    ghost coded = { paths_code };

    ghost use Rattle.json_edit.specs.Edits.{IsCount, HasLeg};

    ghost view = { λ a. a.items.items };

    ghost invariant = { λ a. IsCount (length a.items.items) × AllByRecursion HasLeg a.items.items };
}

impl Pairs {
    ghost use Rattle.json_edit.specs.Edits.{IsCount};

    pub fn new(items: Vec<Pair>) -> Pairs
        requires { IsCount (length items.items) }
        ensures { result ≡ map assigned items.items }
    {
        Pairs { items }
    }

    pub fn as_slice(&self) -> &[Pair]
        ensures items { map assigned result.now ≡ self.now }
        ensures few { IsCount (length result.now) }
    {
        self.items.as_slice()
    }

    pub fn into_vec(self) -> Vec<Pair>
        ensures { map assigned result.items ≡ self }
    {
        self.items
    }
}

impl Paths {
    ghost use Rattle.json_edit.specs.Edits.{IsCount};

    pub fn new(items: Vec<Path>) -> Paths
        requires few { IsCount (length items.items) }
        requires legs { AllByRecursion HasLeg items.items }
        ensures { result ≡ items.items }
    {
        Paths { items }
    }

    pub fn as_slice(&self) -> &[Path]
        ensures items { result.now ≡ self.now }
        ensures few { IsCount (length result.now) }
        ensures legs { AllByRecursion HasLeg result.now }
    {
        self.items.as_slice()
    }
}
