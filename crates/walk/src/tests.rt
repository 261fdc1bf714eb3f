//! What the readings make of records and of values.

use crate::depth::Depth;
use crate::reading::Reading;
use crate::steady::Steady;
use records::image::Record;
use std::test::Fail;

/// What a reading makes of a record whose operands have these values.
fn value<R: Reading>(reading: &R, bytes: &[u8], operands: &[R::Value]) -> R::Value {
    let mut running = reading.start(Record { bytes });
    for operand in operands {
        running = reading.take(running, operand);
    }
    reading.finish(running)
}

#[test]
fn depths(rt: HostRuntime) -> Result<(), Fail> {
    assert_eq!(rt; value(&Depth, &[64, 0, 0, 0, 0], &[]), 1);
    assert_eq!(rt; value(&Depth, &[81], &[3, 7, 5]), 8);
    assert_eq!(rt; value(&Depth, &[81], &[4_294_967_294]), 4_294_967_295);
    assert_eq!(rt; value(&Depth, &[81], &[4_294_967_295, 1]), 4_294_967_295);
    Ok(())
}

// Each kind that is steady, and no other.
#[test]
fn steady_kinds(rt: HostRuntime) -> Result<(), Fail> {
    let steady = [64, 65, 67, 68, 69, 70, 71, 72, 80, 81, 82, 84, 85, 86];
    for kind in 0..=255u8 {
        assert_eq!(rt; value(&Steady, &[kind], &[true]), steady.contains(&kind));
        assert!(rt; !value(&Steady, &[kind], &[true, false]));
    }
    assert!(rt; !value(&Steady, &[], &[]));
    Ok(())
}
