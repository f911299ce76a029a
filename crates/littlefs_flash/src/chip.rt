// A flash chip as its driver sees it.

ghost use Rattle.std.specs.Prelude.{◌≡◌, List, []};
ghost use Rattle.std.specs.Borrow.{ftrue};
ghost use Rattle.lfs_model.specs.format.Blocks.{Blocks, HasBlockSizes};
ghost use Rattle.lfs_model.specs.session.History.{CallEvent, LeftByLatestCall};
ghost use Rattle.lfs_model.specs.crash.Conformance.{CallsConform};
ghost use Rattle.lfs_device.specs.Bytes.{AreByteBlocks};

use std::marker::Model;

/// The bytes of a chip and its calls so far. Only proofs use this struct; it is empty at run time.
#[repr(C)]
#[derive(Drop)]
pub struct FlashState {
    pub ghost blocks: { Blocks },
    pub ghost history: { List CallEvent },
}

impl Model for FlashState {
    ghost also_owns = { λ _. ftrue };
}

impl FlashState {
    /// Returns the state of a chip without blocks. Ignores its arguments.
    pub fn none<S, T>(_one: &S, _other: &T) -> FlashState
        ensures { (result.blocks ≡ []) × (result.history ≡ []) }
    {
        FlashState {}
    }
}

/// A flash chip: the number by which its driver identifies it, its block and page size in bytes,
/// and its number of blocks.
///
/// The application makes one `Chip` for each flash. A mounted session owns its chip, and
/// [`Chip::none`] takes the chip's place.
#[repr(C)]
#[derive(Drop)]
pub struct Chip {
    pub number: u32,
    pub block_size: u32,
    pub page: u32,
    pub block_count: u32,
    pub state: FlashState,
    pub ghost shape: { HasBlockSizes block_size block_count state.blocks },
    pub ghost bytes: { AreByteBlocks state.blocks },
    pub ghost newest: { LeftByLatestCall state.history state.blocks },
    pub ghost conforms: { CallsConform state.history },
}

impl Chip {
    /// Returns a chip without blocks. All numbers of this chip are 0, so it can't be mounted.
    pub fn none() -> Chip
        ensures { result.block_count ≡ 0 }
    {
        Chip {
            number: 0,
            block_size: 0,
            page: 0,
            block_count: 0,
            state: FlashState::none(&(), &()),
        }
    }
}
