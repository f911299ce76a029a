// SPDX-License-Identifier: BSD-3-Clause
//! Functions that store settings, a counter and a log in files that stay whole if power is lost.
//! Each function's contract is proved from the contracts of a session.
#![tactic(auto)]

mod counter;
mod examples;
mod files;
mod lives;
mod log;
mod settings;
mod stops;

pub use counter::{increment_counter, read_counter, set_counter};
pub use examples::{
    counter_is_four_bytes, file_has_the_written_bytes, file_is_written_whole,
    formatted_disk_can_be_mounted, log_has_whole_entries, nothing_is_done_without_call,
    power_loss_may_interrupt_saves, session_works_on_while_it_answers, settings_are_old_or_new,
};
pub use files::{memory_erases_cleanly, read_file, start, write_file};
pub use lives::power_loss_interrupts_one_call;
pub use log::{append_to_log, log_survives_any_losses};
pub use settings::{format_and_save, read_settings, save_settings, settings_survive_any_losses};
pub use stops::save_and_remount;
