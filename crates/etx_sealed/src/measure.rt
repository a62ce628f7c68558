//! What a line measures.
ghost use Rattle.std.specs.Prelude.{◌≡◌, ◌≤◌, ℕ, ◌+◌, length};
ghost use Rattle.etx_sealed.specs.Sums.{none, plus, less, less_stretch, glue_shrink, measure_of, measure_all, glue_measure, IsSmall};
ghost use Rattle.etx_matter.specs.Sizes.{glue_of};
ghost use Rattle.etx_pack.specs.Sums.{together, Small4};

use etx_matter::{Glue, Node};
use etx_pack::OrderTotals;

/// The natural width of a line in sp, its stretch in each order of infinity, and its shrink, all of which is finite.
#[derive(Clone, Copy, Debug, PartialEq, Eq)]
pub struct Measure {
    pub natural: i64,
    pub stretch: OrderTotals,
    pub shrink: i64,
}

fn stretch_plus(a: OrderTotals, b: OrderTotals) -> OrderTotals
    requires first { Small4 1073741826 a }
    requires second { Small4 2147483648 b }
    ensures value { result ≡ together a b }
    ensures small { (m n : ℕ) → Small4 m a → Small4 n b → Small4 (m + n) result }
{
    OrderTotals {
        normal: a.normal + b.normal,
        fil: a.fil + b.fil,
        fill: a.fill + b.fill,
        filll: a.filll + b.filll,
    }
}

fn stretch_less(a: OrderTotals, b: OrderTotals) -> OrderTotals
    requires first { Small4 1610612738 a }
    requires second { Small4 1610612736 b }
    ensures value { result ≡ less_stretch a b }
    ensures small { (m n : ℕ) → Small4 m a → Small4 n b → Small4 (m + n) result }
{
    OrderTotals {
        normal: a.normal - b.normal,
        fil: a.fil - b.fil,
        fill: a.fill - b.fill,
        filll: a.filll - b.filll,
    }
}

fn shrink_of(node: &Node) -> i32
    ensures { result ≡ glue_shrink (glue_of node.now) }
{
    match node.glue() {
        Some(glue) => glue.shrink,
        None => 0,
    }
}

impl Measure {
    /// Of nothing.
    pub fn none() -> Measure
        ensures value { result ≡ none }
        ensures small { IsSmall 0 result }
    {
        Measure {
            natural: 0,
            stretch: OrderTotals::nothing(),
            shrink: 0,
        }
    }

    /// With a node more. For the sums of a list there is room.
    pub(crate) fn add(&mut self, node: &Node)
        requires { IsSmall 1073741823 self.old }
        ensures value { self.new ≡ plus self.old (measure_of node.now) }
        ensures small { (count : ℕ) → IsSmall count self.old → IsSmall (count + 1) self.new }
    {
        self.natural += i64::from(node.width());
        self.stretch.add_stretch(node);
        self.shrink += i64::from(shrink_of(node));
    }

    /// Both together.
    pub(crate) fn plus(self, other: Measure) -> Measure
        requires first { IsSmall 1073741826 self }
        requires second { IsSmall 2147483648 other }
        ensures value { result ≡ plus self other }
        ensures small { (a b : ℕ) → IsSmall a self → IsSmall b other → IsSmall (a + b) result }
    {
        Measure {
            natural: self.natural + other.natural,
            stretch: stretch_plus(self.stretch, other.stretch),
            shrink: self.shrink + other.shrink,
        }
    }

    /// This without the other.
    pub(crate) fn less(self, other: Measure) -> Measure
        requires first { IsSmall 1610612738 self }
        requires second { IsSmall 1610612736 other }
        ensures value { result ≡ less self other }
        ensures small { (a b : ℕ) → IsSmall a self → IsSmall b other → IsSmall (a + b) result }
    {
        Measure {
            natural: self.natural - other.natural,
            stretch: stretch_less(self.stretch, other.stretch),
            shrink: self.shrink - other.shrink,
        }
    }
}

/// Of glue at the side of a line.
pub(crate) fn glue_measure(glue: Glue) -> Measure
    ensures value { result ≡ glue_measure glue }
    ensures small { IsSmall 1 result }
{
    Measure {
        natural: i64::from(glue.width),
        stretch: OrderTotals::share(glue.stretch_order, glue.stretch),
        shrink: i64::from(glue.shrink),
    }
}

/// Of all these nodes.
pub(crate) fn measure_all(nodes: &[Node]) -> Measure
    requires { length nodes.now ≤ 1073741824 }
    ensures value { result ≡ measure_all nodes.now }
    ensures small { IsSmall (length nodes.now) result }
{
    let mut sums = Measure::none();
    for node in nodes {
        sums.add(node);
    }
    sums
}
