// The calls of a writer, which is a file that is open for writing.

ghost use Rattle.std.specs.Prelude.{ℕ, List, [], true, ◌≡◌, length, IfErr, IfOk, IfSome, IsSome, OnErr, OnOk};
ghost use Rattle.lfs_model.specs.session.Writers.{opened_writer, synced_writer, truncated_writer, writer_after_write};
ghost use Rattle.lfs_tree.specs.OpenContents.{AreTreeContents, IsStoreApplied, KeepsImage, writer_contents_bytes, kept_thread};
ghost use Rattle.lfs_tree.specs.TreeState.{visible_tree, OnlyReadsTree, IsFailedTree, IsOperationApplied, FailedByReading, HasErrorCause, IsSoundState, KeepsOthersIfRecovered, PowerLossesLeaveEither};
ghost use Rattle.lfs_file.specs.Contents.{contents_form};
ghost use Rattle.lfs_fs.specs.WriterChanges.{CanOpenWriter, IsOpenedWriter, CanSaveWriter, CanTruncateTo, CanWriteBytes, IsWritablePath, IsDraftOrFileForm, IsSavedWriter, IsChangedWriter};
ghost use Rattle.lfs_fs.specs.FileView.{draft_or_stored_bytes, writer_view};
ghost use Rattle.lfs_fs.specs.FlagsView.{flags_view};
ghost use Rattle.lfs_model.specs.session.TreeEdits.{tree_creating, file_bytes, tree_with_change};
ghost use Rattle.lfs_model.specs.session.Operations as ops;
ghost use Rattle.lfs_model.specs.session.Operations.{FlagsOfOpen};
ghost use Rattle.lfs_model.specs.session.Refusals.{path_or_root};
ghost use Rattle.lfs_model.specs.session.Effects.{node_with_bytes};
ghost use Rattle.lfs_model.specs.tree.Tree.{FileNode};
ghost use Rattle.lfs_model.specs.format.Slots.{zero_gstate};
ghost use Rattle.lfs_model.specs.format.Thread.{pairs_gstate};
ghost use Rattle.lfs_tree.specs.CreationPaths.{IsCreationResult};
ghost use Rattle.lfs_tree.specs.Permissions.{CanCreateFile};

use crate::files::{UnsavedContents, Writer};
use crate::flags::OpenFlags;
use crate::owned_path::OwnedPath;
use bitflags::Flags;
use lfs_device::{BlockDevice, Error};
use lfs_file::{WriterContents, lemma_forms_fit, lemma_reserve_suffices};
use lfs_lookup::PathLookup;
use lfs_tree::{Tree, lemma_contents_stay, lemma_few_blocks};
use std::alloc::Global;

// Returns the contents of a writer whose file has `size` bytes: its unsynced contents, or the
// file's contents if there are no unsynced changes.
fn contents_of_writer<D: BlockDevice>(
    alloc: Global,
    tree: &mut Tree<D>,
    path: &OwnedPath,
    size: u32,
    unsaved: Option<UnsavedContents>,
) -> Result<WriterContents, Error>
    requires file { IsWritablePath tree.old path.now unsaved }
    requires size { length (draft_or_stored_bytes tree.old path.now unsaved) ≡ size }
    ensures asked { OnOk result (OnlyReadsTree tree.old tree.new) }
    ensures over { IfOk result (AreTreeContents tree.new path.now) }
    ensures bytes { IfOk result (λ c. writer_contents_bytes (kept_thread tree.new) c ≡ draft_or_stored_bytes tree.old path.now unsaved) }
    ensures form { IfOk result (λ c. IsDraftOrFileForm tree.old.disk.profile tree.old.disk.block_size unsaved (length (draft_or_stored_bytes tree.old path.now unsaved)) (contents_form c)) }
    ensures broken { OnErr result (FailedByReading tree.old tree.new) }
    ensures errors { IfErr result (HasErrorCause tree.old tree.new) }
{
    match unsaved {
        Some(unsaved) => Ok(unsaved.contents),
        None if size == 0 => tree.empty_contents(alloc),
        None => tree.open_writer_contents(alloc, &path.lend()),
    }
}

// Writes bytes, at least one, by a writer. After an error the writer can't be used.
pub(crate) fn write_to_draft<D: BlockDevice>(
    alloc: Global,
    tree: &mut Tree<D>,
    writer: &mut Writer,
    bytes: &[u8],
) -> Result<(), Error>
    requires { CanWriteBytes tree.old writer.old bytes.now }
    ensures written { OnOk result (IsChangedWriter tree.new (writer_after_write (writer_view tree.old writer.old) bytes.now) writer.new) }
    ensures beside { OnOk result (KeepsImage tree.old tree.new) }
    ensures broken { OnErr result (IsFailedTree tree.old tree.new) }
    ensures errors { IfErr result (HasErrorCause tree.old tree.new) }
    ensures survives { IsSoundState tree.old → PowerLossesLeaveEither tree.old tree.new (visible_tree tree.old) }
{
    lemma_forms_fit();
    lemma_reserve_suffices();
    let place = writer.place();
    let has_turned = writer.nonsequential_after_change(place.min(writer.size));
    let end = place + bytes.len() as u32;
    let unsaved = writer.unsaved.take();
    let contents = contents_of_writer(alloc, tree, &writer.path, writer.size, unsaved)?;
    let contents = tree.write(alloc, contents, place, bytes)?;
    writer.unsaved = Some(UnsavedContents {
        contents,
        has_turned,
        last_end: Some(end),
    });
    writer.position = end;
    writer.size = writer.size.max(end);
    Ok(())
}

// Sets the size of a writer's contents in bytes. After an error the writer can't be used.
pub(crate) fn truncate_writer<D: BlockDevice>(
    alloc: Global,
    tree: &mut Tree<D>,
    writer: &mut Writer,
    new_size: u32,
) -> Result<(), Error>
    requires { CanTruncateTo tree.old writer.old new_size }
    ensures written { OnOk result (IsChangedWriter tree.new (truncated_writer (writer_view tree.old writer.old) new_size) writer.new) }
    ensures beside { OnOk result (KeepsImage tree.old tree.new) }
    ensures broken { OnErr result (IsFailedTree tree.old tree.new) }
    ensures errors { IfErr result (HasErrorCause tree.old tree.new) }
    ensures survives { IsSoundState tree.old → PowerLossesLeaveEither tree.old tree.new (visible_tree tree.old) }
{
    lemma_forms_fit();
    lemma_reserve_suffices();
    let has_turned = writer.nonsequential_after_resize();
    let last_end = writer.end_after_resize(new_size);
    let unsaved = writer.unsaved.take();
    let contents = contents_of_writer(alloc, tree, &writer.path, writer.size, unsaved)?;
    let contents = tree.truncate(alloc, contents, new_size)?;
    writer.unsaved = Some(UnsavedContents {
        contents,
        has_turned,
        last_end,
    });
    writer.size = new_size;
    Ok(())
}

// Commits the changes of a writer to the tree. After an error the writer can't be used.
pub(crate) fn save_writer<D: BlockDevice>(
    alloc: Global,
    tree: &mut Tree<D>,
    writer: &mut Writer,
) -> Result<(), Error>
    requires { CanSaveWriter tree.old writer.old }
    ensures stored { OnOk result (IsStoreApplied tree.old writer.old.path (draft_or_stored_bytes tree.old writer.old.path writer.old.unsaved) tree.new) }
    ensures saved { OnOk result (IsSavedWriter tree.new (synced_writer (writer_view tree.old writer.old)) writer.new) }
    ensures broken { OnErr result (IsFailedTree tree.old tree.new) }
    ensures errors { IfErr result (HasErrorCause tree.old tree.new) }
    ensures survives { PowerLossesLeaveEither tree.old tree.new (tree_with_change writer.old.path (node_with_bytes (draft_or_stored_bytes tree.old writer.old.path writer.old.unsaved)) (visible_tree tree.old)) }
{
    lemma_reserve_suffices();
    let Some(unsaved) = writer.unsaved.take() else {
        unreachable!()
    };
    tree.commit_writer_contents(alloc, &writer.path.lend(), unsaved.contents)?;
    Ok(())
}

// Opens a writer of an existing file at position 0. Recovers first.
pub(crate) fn open_existing_file<D: BlockDevice>(
    alloc: Global,
    tree: &mut Tree<D>,
    path: OwnedPath,
    size: u32,
    flags: OpenFlags,
) -> Result<Writer, Error>
    requires { CanOpenWriter tree.old path size (flags_view flags).truncate }
    ensures recovered { OnOk result (IsOperationApplied tree.old ops.Recover tree.new) }
    ensures begun { IfOk result (IsOpenedWriter tree.new (opened_writer path (flags_view flags) (file_bytes (visible_tree tree.old path)))) }
    ensures broken { OnErr result (IsFailedTree tree.old tree.new) }
    ensures errors { IfErr result (HasErrorCause tree.old tree.new) }
    ensures survives { PowerLossesLeaveEither tree.old tree.new (visible_tree tree.old) }
{
    lemma_few_blocks();
    lemma_contents_stay();
    let appends = flags.contains(OpenFlags::APPEND);
    if flags.contains(OpenFlags::TRUNCATE) && size > 0 {
        let contents = tree.empty_contents(alloc)?;
        tree.recover(alloc)?;
        return Ok(Writer {
            path,
            position: 0,
            size: 0,
            appends,
            unsaved: Some(UnsavedContents {
                contents,
                has_turned: false,
                last_end: None,
            }),
        });
    }
    tree.recover(alloc)?;
    Ok(Writer {
        path,
        position: 0,
        size,
        appends,
        unsaved: None,
    })
}

// Creates an empty file and opens a writer of it. `known` is the result of looking up the path, or
// None if the image must be recovered first.
pub(crate) fn create_and_open<D: BlockDevice>(
    alloc: Global,
    tree: &mut Tree<D>,
    path: OwnedPath,
    flags: OpenFlags,
    known: Option<PathLookup>,
) -> Result<Writer, Error>
    requires can { CanCreateFile tree.old path }
    requires known { IfSome known (IsCreationResult (kept_thread tree.old) path) }
    requires looked_up { pairs_gstate tree.old.pairs ≡ zero_gstate → IsSome known }
    ensures made { OnOk result ((bytes : List ℕ) (flags : FlagsOfOpen) → path_or_root bytes ≡ path → flags.write ≡ true → IsOperationApplied tree.old (ops.Open bytes flags) tree.new × KeepsOthersIfRecovered tree.old (ops.Open bytes flags) tree.new) }
    ensures begun { IfOk result (IsOpenedWriter tree.new (opened_writer path (flags_view flags) [])) }
    ensures broken { OnErr result (IsFailedTree tree.old tree.new) }
    ensures errors { IfErr result (HasErrorCause tree.old tree.new) }
    ensures survives { PowerLossesLeaveEither tree.old tree.new (tree_creating path (FileNode [] []) (visible_tree tree.old)) }
{
    tree.create(alloc, &path.lend(), known)?;
    Ok(Writer {
        path,
        position: 0,
        size: 0,
        appends: flags.contains(OpenFlags::APPEND),
        unsaved: None,
    })
}
