//! Each call once, at a type that has no copy of its own.
use etx_stack::{Share, Stack};
use std::alloc::AllocError;
use std::test::Fail;

/// A number that can be had twice.
#[derive(Drop)]
struct Number {
    value: u32,
}

impl Share for Number {
    fn share(&self) -> Result<Number, AllocError> {
        Ok(Number { value: self.value })
    }
}

fn ends_with(stack: &Stack<Number>, len: usize, value: u32) -> bool {
    match stack.last() {
        Some(last) => stack.len() == len && last.value == value,
        None => false,
    }
}

#[test]
fn goes_back_to_the_list_at_the_mark(rt: HostRuntime) -> Result<(), Fail> {
    let mut stack: Stack<Number> = Stack::new(rt.alloc());
    stack.push(Number { value: 1 })?;
    stack.push(Number { value: 2 })?;
    let mark = stack.mark();
    stack.push(Number { value: 3 })?;
    stack.drop_last()?;
    let _two = stack.pop()?;
    stack.push(Number { value: 4 })?;
    stack.back_to(mark);
    assert!(rt; ends_with(&stack, 2, 2));
    Ok(())
}

#[test]
fn the_last_item_is_changed_in_place(rt: HostRuntime) -> Result<(), Fail> {
    let mut stack: Stack<Number> = Stack::new(rt.alloc());
    assert!(rt; !stack.free_last()?);
    stack.push(Number { value: 1 })?;
    assert!(rt; stack.is_free());
    let mark = stack.mark();
    assert!(rt; !stack.is_free());
    if stack.free_last()? {
        stack.last_mut().value = 5;
    }
    assert!(rt; ends_with(&stack, 1, 5) && stack.is_free());
    stack.drop_free();
    assert!(rt; stack.is_empty());
    stack.back_to(mark);
    assert!(rt; ends_with(&stack, 1, 1));
    Ok(())
}
