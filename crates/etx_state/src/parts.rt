//! The parts that stand for the values.
use crate::cell::{Cell, Item};
use etx_stack::Stack;
use etx_undo::Store;

/// The cells of keys, what the ends of groups do, and how many groups are open.
#[derive(Drop)]
pub struct Parts {
    pub store: Store<Cell>,
    pub stack: Stack<Item>,
    pub depth: u32,
}
