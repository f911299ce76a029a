// What a device's call history says.

ghost use Rattle.std.specs.Prelude.{◌≡◌, ℕ, true, false, [], ◌∷◌, map};
ghost use Rattle.lfs_model.specs.format.Blocks.{Blocks, block_bytes};
ghost use Rattle.lfs_model.specs.session.History.{CallEvent, Program, Erase, call_event, read_count, program_count, erase_count, blank_answer_count, fault_count, is_unprogrammed_byte, AreUnprogrammed, OthersStayUnprogrammed, AllCallsSince, OnlyReadsSince, LossLeavesAtWorst, HoldsAtLosses};
ghost use Rattle.lfs_model.specs.crash.Conformance.{CallsConform};
ghost use Rattle.lfs_model.specs.examples.Histories.{example_after_erase, example_after_program, blank_check_event, failed_blank_check, history_after_erase, history_after_program, after_read, ineffective_program, wrong_block_erase};

/// A history determines how many reads, programs, erases, blank checks and faults a device has had.
pub fn history_counts_device_calls()
    ensures each { read_count after_read ∷ program_count after_read ∷ erase_count after_read ∷ fault_count after_read ∷ [] ≡ 1 ∷ 1 ∷ 1 ∷ 1 ∷ [] }
    ensures blanks { blank_answer_count after_read ∷ blank_answer_count (blank_check_event ∷ after_read) ∷ [] ≡ 0 ∷ 1 ∷ [] }
    ensures fewer { read_count history_after_program ∷ fault_count history_after_program ∷ program_count history_after_erase ∷ [] ≡ 0 ∷ 0 ∷ 0 ∷ [] }
{}

/// A byte is unprogrammed after a successful erase of its block, until the byte is programmed.
pub fn bytes_are_unprogrammed_after_erase()
    ensures bytes { map (is_unprogrammed_byte after_read 0) (0 ∷ 1 ∷ 2 ∷ 3 ∷ []) ≡ false ∷ false ∷ true ∷ true ∷ [] }
    ensures never_erased { is_unprogrammed_byte after_read 1 0 ≡ false }
    ensures failed { is_unprogrammed_byte (call_event (Erase 0) example_after_program example_after_erase true ∷ after_read) 0 2 ≡ false }
    ensures from_there { AreUnprogrammed after_read 0 2 4 }
    ensures not_before { AreUnprogrammed after_read 0 1 4 → ⊥ }
{}

/// A call in one block leaves the unprogrammed bytes of all other blocks unprogrammed.
pub fn other_bytes_stay_unprogrammed()
    ensures stay { OthersStayUnprogrammed (0 ∷ []) history_after_erase after_read }
    ensures dont_stay { OthersStayUnprogrammed (1 ∷ []) history_after_erase after_read → ⊥ }
{}

/// Bytes that the device reports as blank are unprogrammed until they are programmed.
pub fn blank_bytes_are_unprogrammed()
    ensures bytes { map (is_unprogrammed_byte (blank_check_event ∷ after_read) 1) (0 ∷ 1 ∷ 2 ∷ 3 ∷ []) ≡ false ∷ false ∷ true ∷ true ∷ [] }
    ensures other_block { is_unprogrammed_byte (blank_check_event ∷ after_read) 0 1 ≡ false }
    ensures failed { is_unprogrammed_byte (failed_blank_check ∷ after_read) 1 2 ≡ false }
    ensures programmed { is_unprogrammed_byte (call_event (Program 1 2 (7 ∷ [])) example_after_program example_after_program true ∷ blank_check_event ∷ []) 1 2 ≡ false }
    ensures conforms { CallsConform (blank_check_event ∷ failed_blank_check ∷ []) }
    ensures stays { OthersStayUnprogrammed [] after_read (blank_check_event ∷ after_read) }
{}

/// `AllCallsSince` says that every call since an older history has a property.
pub fn property_holds_of_later_calls()
    ensures succeeded { AllCallsSince (λ (e : CallEvent). e.failed ≡ false) [] history_after_program }
    ensures one_failed { AllCallsSince (λ (e : CallEvent). e.failed ≡ false) [] after_read → ⊥ }
    ensures only_read { OnlyReadsSince example_after_program history_after_program after_read }
    ensures not_only { OnlyReadsSince example_after_program history_after_erase after_read → ⊥ }
{}

/// At worst, a power loss in a call changes any bytes of the block that the call is for. The loss
/// changes no other block.
pub fn power_loss_changes_only_block_of_call()
    ensures block_1 { HoldsAtLosses LossLeavesAtWorst [] after_read (λ (blocks : Blocks). block_bytes blocks 1 ≡ 5 ∷ 6 ∷ 7 ∷ 8 ∷ []) }
    ensures block_0 { HoldsAtLosses LossLeavesAtWorst [] after_read (λ (blocks : Blocks). block_bytes blocks 0 ≡ 9 ∷ 9 ∷ 0xff ∷ 0xff ∷ []) → ⊥ }
{}

/// A history conforms if each call that didn't fail did its work and changed no other block.
pub fn calls_conform_unless_failed()
    ensures conforms { CallsConform after_read }
    ensures not_programmed { CallsConform (ineffective_program ∷ []) → ⊥ }
    ensures another_block { CallsConform (wrong_block_erase ∷ []) → ⊥ }
{}
