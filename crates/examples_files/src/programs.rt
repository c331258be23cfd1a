use cl_model::Buffers;
use cl_model::laws::{exchange_law, increment_law};
use std::test::Fail;

#[test]
fn increments_are_found_at_four_and_two(rt: HostRuntime) -> Result<(), Fail> {
    let (program, launch, buffers) = increment_law(rt.alloc(), 4, 2)?;
    assert_eq!(rt; program.functions.len(), 1);
    assert_eq!(rt; program.functions[0].name.bytes(), b"inc".as_slice());
    assert_eq!(rt; program.functions[0].body.len(), 1);
    assert_eq!(rt; launch.global[0], 4);
    assert_eq!(rt; launch.local[0], 2);
    assert_eq!(rt; buffers.list.len(), 1);
    assert_eq!(rt; buffers.list[0].len(), 16);
    Ok(())
}

#[test]
fn an_exchange_of_two_items_is_found(rt: HostRuntime) -> Result<(), Fail> {
    let (program, launch, buffers) = exchange_law(rt.alloc())?;
    assert_eq!(rt; program.functions.len(), 1);
    assert_eq!(rt; program.functions[0].name.bytes(), b"ex".as_slice());
    assert_eq!(rt; launch.global[0], 2);
    assert_eq!(rt; launch.turns, 0);
    assert_eq!(rt; buffers.list.len(), 1);
    assert_eq!(rt; buffers.list[0].len(), 8);
    Ok(())
}

#[test]
fn a_copy_has_the_same_bytes(rt: HostRuntime) -> Result<(), Fail> {
    let mut list = Vec::new(rt.alloc());
    list.push(vec![in rt.alloc(); 1u8, 2, 3]?)?;
    list.push(Vec::new(rt.alloc()))?;
    let buffers = Buffers { list };
    let copy = buffers.copy(rt.alloc())?;
    assert_eq!(rt; copy.list.len(), 2);
    assert_eq!(rt; copy.list[0].as_slice(), [1u8, 2, 3].as_slice());
    Ok(())
}
