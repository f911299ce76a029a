// Sources, from which trees of files are made.

ghost use Rattle.std.specs.Prelude.{◌≡◌, [], ◌∷◌, map, Some, None, codes};
ghost use Rattle.lfs_model.specs.tree.Tree.{FileNode, DirectoryNode};
ghost use Rattle.lfs_model.specs.tree.Fresh.{empty_tree};
ghost use Rattle.lfs_model.specs.layers.Source.{HaveBadOrRepeatedNames, AFile, AFolder, node_at, IsSourceTree};
ghost use Rattle.lfs_model.specs.examples.Sources.{file_source, endless_source};
ghost use Rattle.lfs_model.specs.examples.Images.{tree_of_nodes};

/// The tree of a source has exactly the files and folders that the source's folders list.
pub fn tree_mirrors_source_folders()
    ensures one { IsSourceTree file_source (tree_of_nodes (([], DirectoryNode [] (codes "a" ∷ [])) ∷ (codes "a" ∷ [], FileNode [] (codes "hello")) ∷ [])) }
    ensures not_empty { IsSourceTree file_source empty_tree → ⊥ }
    ensures depths { map (node_at endless_source []) ([] ∷ (codes "d" ∷ codes "a" ∷ []) ∷ (codes "a" ∷ codes "a" ∷ []) ∷ (codes "x" ∷ []) ∷ [])
        ≡ Some (AFolder (codes "d" ∷ codes "a" ∷ [])) ∷ Some (AFile (codes "/d/a")) ∷ None ∷ None ∷ [] }
{}

/// A folder of a source may not list a bad name, such as one with a slash, or the same name twice.
pub fn bad_source_names_are_found()
    ensures slash { HaveBadOrRepeatedNames (codes "a" ∷ codes "a/b" ∷ []) }
    ensures twice { HaveBadOrRepeatedNames (codes "a" ∷ codes "b" ∷ codes "a" ∷ []) }
    ensures good { HaveBadOrRepeatedNames (codes "a" ∷ codes "b" ∷ []) → ⊥ }
{}
