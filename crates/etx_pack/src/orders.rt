//! A sum of stretch or shrink for each order of infinity.
ghost use Rattle.std.specs.Prelude.{◌≡◌, ◌≤◌, ℕ, ◌+◌, ◌*◌, unsigned_abs};
ghost use Rattle.etx_pack.specs.Sums.{nothing, share, together, stretch_of, shrink_of, Small4};
ghost use Rattle.etx_pack.specs.Fits.{highest, amount_of};

use etx_matter::{GlueOrder, Node};

/// The stretch, or the shrink, of a list in each order. The finite one is in sp, the others in 65536ths of their unit.
#[derive(Clone, Copy, Debug, PartialEq, Eq)]
pub struct OrderTotals {
    pub normal: i64,
    pub fil: i64,
    pub fill: i64,
    pub filll: i64,
}

impl OrderTotals {
    /// Nothing of any order.
    pub fn nothing() -> OrderTotals
        ensures { result ≡ nothing }
    {
        OrderTotals {
            normal: 0,
            fil: 0,
            fill: 0,
            filll: 0,
        }
    }

    /// So much of one order, and nothing of the others.
    pub fn share(order: GlueOrder, amount: i32) -> OrderTotals
        ensures value { result ≡ share order amount }
        ensures small { Small4 1 result }
    {
        let mut totals = OrderTotals::nothing();
        let amount = i64::from(amount);
        match order {
            GlueOrder::Normal => totals.normal = amount,
            GlueOrder::Fil => totals.fil = amount,
            GlueOrder::Fill => totals.fill = amount,
            GlueOrder::Filll => totals.filll = amount,
        }
        totals
    }

    /// Adds so much of one order. For the sums of a list there is room.
    pub fn add(&mut self, order: GlueOrder, amount: i32)
        requires { Small4 1073741823 self.old }
        ensures value { self.new ≡ together self.old (share order amount) }
        ensures small { (count : ℕ) → Small4 count self.old → Small4 (count + 1) self.new }
    {
        let amount = i64::from(amount);
        match order {
            GlueOrder::Normal => self.normal += amount,
            GlueOrder::Fil => self.fil += amount,
            GlueOrder::Fill => self.fill += amount,
            GlueOrder::Filll => self.filll += amount,
        }
    }

    /// Adds the stretch of a node.
    #[tactic(auto, unfolding(crate::specs::Sums::stretch_of))]
    pub fn add_stretch(&mut self, node: &Node)
        requires { Small4 1073741823 self.old }
        ensures value { self.new ≡ together self.old (stretch_of node.now) }
        ensures small { (count : ℕ) → Small4 count self.old → Small4 (count + 1) self.new }
    {
        if let Some(glue) = node.glue() {
            self.add(glue.stretch_order, glue.stretch);
        }
    }

    /// Adds the shrink of a node.
    #[tactic(auto, unfolding(crate::specs::Sums::shrink_of))]
    pub fn add_shrink(&mut self, node: &Node)
        requires { Small4 1073741823 self.old }
        ensures value { self.new ≡ together self.old (shrink_of node.now) }
        ensures small { (count : ℕ) → Small4 count self.old → Small4 (count + 1) self.new }
    {
        if let Some(glue) = node.glue() {
            self.add(glue.shrink_order, glue.shrink);
        }
    }

    /// The order that governs: the highest of which there is some, and the finite one where there is nothing of any.
    #[tactic(auto, unfolding(crate::specs::Fits::highest))]
    pub fn highest(self) -> GlueOrder
        ensures { result ≡ highest self }
    {
        if self.filll != 0 {
            GlueOrder::Filll
        } else if self.fill != 0 {
            GlueOrder::Fill
        } else if self.fil != 0 {
            GlueOrder::Fil
        } else {
            GlueOrder::Normal
        }
    }

    /// How much there is of an order.
    pub fn amount(self, order: GlueOrder) -> i64
        ensures value { result ≡ amount_of order self }
        ensures small { (count : ℕ) → Small4 count self → unsigned_abs result ≤ count * 2147483648 }
    {
        match order {
            GlueOrder::Normal => self.normal,
            GlueOrder::Fil => self.fil,
            GlueOrder::Fill => self.fill,
            GlueOrder::Filll => self.filll,
        }
    }
}
