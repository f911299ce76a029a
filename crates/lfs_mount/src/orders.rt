// Sets of orders of names, and a result for each order.

ghost use Rattle.std.specs.Prelude.{◌≡◌, ◌&&◌, IfErr, IfOk, None, Ok, Some, is_some, true};
ghost use Rattle.lfs_model.specs.declared.order.NameOrder.{NameOrder};
ghost use Rattle.lfs_model.specs.declared.order.NameOrder.TheVariants.{LongerFirst, ShorterFirst};
ghost use Rattle.lfs_mount.specs.Orders.{includes_order, violation_in_order};

use lfs_model::{NameOrder, Violation};

// A set of orders of names.
#[derive(Clone, Copy, Drop)]
pub(crate) struct NameOrderSet {
    pub longer_first: bool,
    pub shorter_first: bool,
}

impl NameOrderSet {
    // Returns the set of both orders.
    pub fn both() -> NameOrderSet
        ensures { (order : NameOrder) → includes_order order result ≡ true }
    {
        NameOrderSet {
            longer_first: true,
            shorter_first: true,
        }
    }

    pub fn contains(self, order: NameOrder) -> bool
        ensures { result ≡ includes_order order self }
    {
        match order {
            NameOrder::LongerFirst => self.longer_first,
            NameOrder::ShorterFirst => self.shorter_first,
        }
    }

    // Returns the orders that are in both sets.
    pub fn intersect(self, other: NameOrderSet) -> NameOrderSet
        ensures { (order : NameOrder) → includes_order order result ≡ (includes_order order self && includes_order order other) }
    {
        NameOrderSet {
            longer_first: self.longer_first && other.longer_first,
            shorter_first: self.shorter_first && other.shorter_first,
        }
    }
}

/// For each order of names, a rule that an image breaks, or None if the image is accepted in that
/// order.
#[derive(Clone, Copy, Drop)]
pub struct OrderViolations {
    pub longer_first: Option<Violation>,
    pub shorter_first: Option<Violation>,
}

impl OrderViolations {
    /// Returns the order of names in which the image is accepted. If the image is accepted in both
    /// orders, returns the order with the longer name first, as in littlefs's own code.
    ///
    /// Errors: the rule that the image breaks in the order with the longer name first, if the image
    /// is accepted in neither order.
    pub fn preferred_accepted_order(self) -> Result<NameOrder, Violation>
        ensures kept { IfOk result (λ order. violation_in_order order self ≡ None) }
        ensures longer { result ≡ Ok ShorterFirst → is_some (violation_in_order LongerFirst self) ≡ true }
        ensures broken { IfErr result (λ violation. violation_in_order LongerFirst self ≡ Some violation) }
        ensures neither { IfErr result (λ _. (order : NameOrder) → is_some (violation_in_order order self) ≡ true) }
    {
        match (self.longer_first, self.shorter_first) {
            (None, _) => Ok(NameOrder::LongerFirst),
            (Some(_), None) => Ok(NameOrder::ShorterFirst),
            (Some(violation), Some(_)) => Err(violation),
        }
    }
}
