// Trees of files and directories, and what is made from them.

ghost use Rattle.std.specs.Prelude.{◌≡◌, true, List, [], ◌∷◌, ◌++◌, Some, Contains, is_some, codes};
ghost use Rattle.lfs_model.specs.format.Disk.{Disk};
ghost use Rattle.lfs_model.specs.format.Names.{Name};
ghost use Rattle.lfs_model.specs.format.Slots.{Attributes};
ghost use Rattle.lfs_model.specs.format.Thread.{Pair};
ghost use Rattle.lfs_model.specs.tree.Tree.{Path, Node, FileNode, DirectoryNode, Tree};
ghost use Rattle.lfs_model.specs.tree.Shown.{disk_tree};
ghost use Rattle.lfs_model.specs.session.Operations as ops;
ghost use Rattle.lfs_model.specs.layers.Listing.{PathNode, IsTreeWalk, listing_lines, IsListing, MakeDirectory, PutFile, Unpack, new_flags, AreCopyOperations};
ghost use Rattle.lfs_model.specs.examples.Images.{tree_of_nodes, small_nodes};

/// Every list of pairs shows a tree: each node's name is in its parent directory, and each name in
/// a directory has a node.
pub fn tree_nodes_match_directory_names()
    ensures root { (disk : Disk) (ps : List Pair) → (names : List Name) × (disk_tree disk ps [] ≡ Some (DirectoryNode [] names)) }
    ensures parent { (disk : Disk) (ps : List Pair) (path : Path) (name : Name) (node : Node) → disk_tree disk ps (path ++ name ∷ []) ≡ Some node
        → (attributes : Attributes) × (names : List Name) × (disk_tree disk ps path ≡ Some (DirectoryNode attributes names)) × Contains names name }
    ensures child { (disk : Disk) (ps : List Pair) (path : Path) (attributes : Attributes) (names : List Name) (name : Name)
        → disk_tree disk ps path ≡ Some (DirectoryNode attributes names) → Contains names name → is_some (disk_tree disk ps (path ++ name ∷ [])) ≡ true }
{}

/// Shows how a tree with a file, and a directory that has an empty file, is listed, unpacked and
/// copied.
pub fn example_tree_is_listed_and_unpacked()
    ensures lines { IsListing (tree_of_nodes small_nodes) (codes "f 5 /a\nd 0 /d\nf 0 /d/x\n") }
    ensures actions { Unpack (tree_of_nodes small_nodes) (PutFile (codes "/a") (codes "hello") ∷ MakeDirectory (codes "/d") ∷ PutFile (codes "/d/x") [] ∷ []) }
    ensures operations { AreCopyOperations (tree_of_nodes small_nodes)
        (ops.Open (codes "/a") new_flags ∷ ops.Write 0 (codes "hello") ∷ ops.Close 0 ∷ ops.Mkdir (codes "/d")
        ∷ ops.Open (codes "/d/x") new_flags ∷ ops.Write 0 [] ∷ ops.Close 0 ∷ []) }

    // The name has a newline, a backslash and two bytes above 0x7e.
    ensures escapes { listing_lines (record { path = (0x61 ∷ 0x0a ∷ 0x5c ∷ 0xc3 ∷ 0xa9 ∷ []) ∷ []; node = FileNode [] [] } ∷ [])
        ≡ codes "f 0 /a" ++ 0x5c ∷ codes "x0a" ++ 0x5c ∷ codes "x5c" ++ 0x5c ∷ codes "xc3" ++ 0x5c ∷ codes "xa9" ++ 0x0a ∷ [] }

    // A tree has only one listing.
    ensures one { (tree : Tree) (a b : List PathNode) → IsTreeWalk tree a → IsTreeWalk tree b → a ≡ b }
{}
