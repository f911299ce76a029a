// The sizes and limits of boards and of firmware.

ghost use Rattle.std.specs.Prelude.{◌≡◌};
ghost use Rattle.lfs_tool.specs.Boards.{board_block_size, board_named, board_profile, profile_of_firmware};

use lfs_model::{AcceptedVersions, Profile};

/// A board or a firmware, whose sizes and limits apply unless an option overrides them.
#[derive(Clone, Copy, Debug, PartialEq, Eq)]
pub enum Board {
    /// No board is given, so the tool's own defaults apply.
    Unnamed,
    /// An ESP8266 with Arduino.
    Esp8266,
    /// An ESP32 with ESP-IDF or Arduino.
    Esp32,
    /// An RP2040 or RP2350 with Arduino.
    Rp2040,
    /// Any board with MicroPython.
    Micropython,
}

// Returns the profile of a firmware that has names of at most `name_max` bytes and inline files of
// at most `inline_max` bytes.
fn firmware_profile(name_max: u32, inline_max: u32) -> Profile
    ensures { result ≡ profile_of_firmware name_max inline_max }
{
    let other = Profile::new();
    Profile {
        versions: AcceptedVersions::AlsoTwoOne,
        name_max,
        file_max: other.file_max,
        attr_max: other.attr_max,
        inline_max,
        pair_cycles: other.pair_cycles,
        search_seed: other.search_seed,
    }
}

impl Board {
    // Returns the board with this name, or None if no board has it.
    pub(crate) fn of_name(text: &str) -> Option<Board>
        ensures { result ≡ board_named text.now }
    {
        if text == "esp8266" {
            Some(Board::Esp8266)
        } else if text == "esp32" {
            Some(Board::Esp32)
        } else if text == "rp2040" {
            Some(Board::Rp2040)
        } else if text == "micropython" {
            Some(Board::Micropython)
        } else {
            None
        }
    }

    // Returns the board's block size in bytes.
    pub(crate) fn block_size(self) -> u32
        ensures { result ≡ board_block_size self }
    {
        match self {
            Board::Esp8266 => 8192,
            Board::Unnamed | Board::Esp32 | Board::Rp2040 | Board::Micropython => 4096,
        }
    }

    // Returns the board's limits and accepted versions. `name_max` is the firmware's LFS_NAME_MAX,
    // and `inline_max` is its cache_size.
    pub(crate) fn profile(self) -> Profile
        ensures { result ≡ board_profile self }
    {
        match self {
            Board::Unnamed => Profile::new(),
            Board::Esp8266 => firmware_profile(32, 64),
            Board::Esp32 => firmware_profile(64, 512),
            Board::Rp2040 => firmware_profile(255, 256),
            Board::Micropython => firmware_profile(255, 128),
        }
    }
}
