ghost use Rattle.std.specs.Prelude.{ℕ, List};
ghost use Rattle.tree_model.specs.Tree.{Tree, IsTree};
ghost use Rattle.tree_model.specs.Edit.{Edit, edited};
ghost use Rattle.binary_model.specs.Change.{SetsTrees};
ghost use Rattle.journal_model.specs.Documents.{look};
ghost use Rattle.journal_model.specs.Journal.{Script, Opening, Entry};
ghost use Rattle.journal_model.specs.Part.{docs, newest};
ghost use Rattle.journal_model.specs.Legal.{IsLegal};
ghost use Rattle.journal_model.specs.History.{history};
ghost use Rattle.history_model.specs.Laws.{IsRun};
ghost use Rattle.history_model.specs.Scripts.{HasPaths, HasStatements, MayStand, AllStand};

/// An edit of a tree by paths gives a tree.
#[tactic(auto, using(crate::proofs::TreeLemmas::edited_is))]
pub fn edits_give_trees()
    ensures { (e : Edit) (t : Tree) → SetsTrees e → HasPaths e → IsTree t → IsTree (edited e t) }
{}

/// In a legal journal the stored bytes of each document stand for its tree, at each commit.
#[tactic(auto, using(crate::proofs::StandLemmas::docs_stand))]
pub fn documents_stand()
    ensures { (o : Opening) (script : Script) → IsRun o script → HasStatements script
        → ((d : ℕ) → MayStand (look o.documents d))
        → (past : List Entry) (n d : ℕ) → IsLegal o script past
        → MayStand (look (docs o script past n) d) }
{}

/// And so do those of a session's newest documents.
#[tactic(auto, using(crate::proofs::StandLemmas::newest_stand))]
pub fn newest_documents_stand()
    ensures { (o : Opening) (script : Script) → IsRun o script → HasStatements script
        → ((d : ℕ) → MayStand (look o.documents d))
        → (past : List Entry) (s d : ℕ) → IsLegal o script past
        → MayStand (look (newest o script s past) d) }
{}

/// And those of all that a history keeps.
pub fn histories_stand()
    ensures { (o : Opening) (script : Script) → IsRun o script → HasStatements script
        → ((d : ℕ) → MayStand (look o.documents d))
        → (past : List Entry) (d : ℕ) → IsLegal o script past → AllStand (history o script past d) }
{}
