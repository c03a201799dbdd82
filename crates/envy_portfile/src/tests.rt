use crate::order::Order;
use std::test::Fail;

#[test]
fn an_order_is_three_numbers(rt: HostRuntime) -> Result<(), Fail> {
    let at = 0x0102_0304_0506_0708;
    let bytes = [9; 0x2dc].as_slice();
    // for each order its first byte, whether it has a place, and whether bytes follow
    let table = [
        (Order::Write { at, bytes }, 1, true, true),
        (Order::Cut { size: at }, 2, true, false),
        (Order::Sync, 3, false, false),
        (Order::Begin, 4, false, false),
        (Order::Append { bytes }, 5, false, true),
        (Order::Replace, 6, false, false),
    ];
    for (order, number, has_place, has_bytes) in table {
        let mut wanted = [0; 24];
        wanted[0] = number;
        if has_place {
            wanted[8..16].copy_from_slice(&[8, 7, 6, 5, 4, 3, 2, 1]);
        }
        if has_bytes {
            wanted[16..18].copy_from_slice(&[0xdc, 2]);
        }
        assert_eq!(rt; order.header(), wanted);
    }
    Ok(())
}
