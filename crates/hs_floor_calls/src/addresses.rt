//! A count and a mark of an address.
use hs_counts::Counts;
use hs_limits::Address;
use hs_marks::Marks;
use std::test::Fail;

const ADDRESS: Address = Address([7; 32]);

#[test]
fn an_address_is_placed_with_the_count_zero(rt: HostRuntime) -> Result<(), Fail> {
    let mut counts = Counts::new(rt.alloc());
    counts.place(ADDRESS)?;
    assert_eq!(rt; counts.zero_new()?.as_slice(), [ADDRESS].as_slice());
    Ok(())
}

#[test]
fn an_address_is_marked(rt: HostRuntime) -> Result<(), Fail> {
    let mut marks = Marks::new(rt.alloc());
    marks.give(ADDRESS, 3)?;
    assert_eq!(rt; marks.get(&ADDRESS), Some(3));
    Ok(())
}
