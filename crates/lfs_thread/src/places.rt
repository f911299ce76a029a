// A list of pair addresses that can be searched without a pass over the whole list.

ghost use Rattle.std.specs.Prelude.{IfSome, IfNone, ◌≡◌, ◌++◌, ◌∷◌, [], ◌<◌, false, nat_eq, OnOk, OnErr, IfErr, length, map};
ghost use Rattle.std.specs.List.{AllByRecursion, IsDistinct};
ghost use Rattle.lfs_model.specs.format.Slots.{address_of_array, same_pair};
ghost use Rattle.lfs_thread.specs.PairPlaces.{SameAddressAt, blocks_of_addresses, greater_of, lesser_of, address_index};

use lfs_device::Error;
use std::alloc::Global;
use std::collections::BTreeMap;
use std::marker::Model;

fn lesser_block(pair: [u32; 2]) -> u32
    ensures { result ≡ lesser_of (address_of_array pair) }
{
    pair[0].min(pair[1])
}

fn greater_block(pair: [u32; 2]) -> u32
    ensures { result ≡ greater_of (address_of_array pair) }
{
    pair[0].max(pair[1])
}

/// A list of pair addresses with an index that finds a pair by its blocks.
///
/// Contracts describe a `PairAddressList` as the sequence of its addresses.
#[derive(Drop)]
pub struct PairAddressList {
    addresses: Vec<[u32; 2]>,
    by_block: BTreeMap<u32, u32>,
}

impl Model for PairAddressList {
    ghost use Rattle.std.specs.Prelude.{List, ℕ, map};
    ghost use Rattle.std.specs.Ordering.{nat_cmp};
    ghost use Rattle.std.specs.BTreeMap.{get};
    ghost use Rattle.lfs_model.specs.format.Slots.{address_of_array};
    ghost use Rattle.lfs_thread.specs.PairPlaces.{FindsByLesser};

    ghost Value = { List (ℕ × ℕ) };

    ghost view = { λ p. map address_of_array p.addresses.items };

    ghost invariant = { λ p. FindsByLesser (map address_of_array p.addresses.items) (get nat_cmp p.by_block) };
}

impl PairAddressList {
    /// Creates an empty list.
    pub fn new(alloc: Global) -> PairAddressList
        ensures { result ≡ [] }
    {
        PairAddressList {
            addresses: Vec::new(alloc),
            by_block: BTreeMap::new(alloc),
        }
    }

    /// Appends the address of a pair to the list. Requires that no two pairs in the resulting list
    /// share a block.
    ///
    /// Errors: `NoMemory` if memory can't be allocated. After an error, the list is unchanged.
    pub fn add(&mut self, pair: [u32; 2]) -> Result<(), Error>
        requires { IsDistinct nat_eq (blocks_of_addresses (self.old ++ address_of_array pair ∷ [])) }
        ensures added { OnOk result (self.new ≡ self.old ++ address_of_array pair ∷ []) }
        ensures same { OnErr result (self.new ≡ self.old) }
        ensures error { IfErr result (λ e. e ≡ Error.NoMemory) }
    {
        let block = lesser_block(pair);
        let place = self.addresses.len() as u32;
        self.addresses.push(pair)?;
        if self.by_block.insert(block, place).is_err() {
            self.addresses.pop();
            return Err(Error::NoMemory);
        }
        Ok(())
    }

    /// Returns the addresses in the order in which they were added.
    pub fn addresses(&self) -> &[[u32; 2]]
        ensures { map address_of_array result.now ≡ self.now }
    {
        &self.addresses
    }

    /// Returns the list index of the address whose two blocks, in either order, are those of
    /// `pair`. Returns None if the list has no such address.
    pub fn find(&self, pair: [u32; 2]) -> Option<u32>
        ensures value { result ≡ address_index self.now (address_of_array pair) }
        ensures within { IfSome result (λ place. place < length self.now) }
        ensures there { IfSome result (SameAddressAt self.now (address_of_array pair)) }
        ensures nowhere { IfNone result (AllByRecursion (λ a. same_pair a (address_of_array pair) ≡ false) self.now) }
    {
        let Some(place) = self.by_block.get(&lesser_block(pair)) else {
            return None;
        };
        let place = *place;
        if greater_block(self.addresses[place as usize]) == greater_block(pair) {
            Some(place)
        } else {
            None
        }
    }
}
