//! Walks of small images.

use crate::fixed::walk_within;
use crate::flags::Flags;
use crate::table::numbered_table;
use crate::walked::Walked;
use std::test::Fail;
use walk::depth::Depth;

/// Global: two literals and their sum. A function with a literal and its derivative.
#[rattlefmt::skip]
const IMAGE: [u8; 51] = [
    64, 0, 0, 0, 0, 64, 1, 0, 0, 0, 81, 0, 0, 0, 0, 0, 0, 0, 0, 1, 0, 0, 0, 11, 0, 0, 0, 0, 255,
    255, 255, 255, 64, 0, 0, 0, 0, 83, 0, 0, 0, 0, 0, 0, 0, 0, 0, 0, 0, 0, 31,
];

/// The depths of the items of a table.
fn depths(image: &[u8], table: u32, body: u32, values: &mut [u32]) -> Walked {
    walk_within::<Depth, 128, 8>(numbered_table(table, body), &Depth, values, image)
}

/// Which of them are steady.
fn flags(image: &[u8], table: u32, body: u32, values: &mut [u8]) -> Walked {
    walk_within::<Flags, 128, 8>(numbered_table(table, body), &Flags, values, image)
}

/// The number of the refusal, and how many items and operands were walked.
fn counts(walked: Walked) -> (u32, usize, usize) {
    (walked.number, walked.items, walked.takes)
}

// The image has no type.
#[test]
fn no_item(rt: HostRuntime) -> Result<(), Fail> {
    assert_eq!(rt; counts(depths(&IMAGE, 0, 0, &mut [])), (0, 0, 0));
    let mut values = [7];
    assert_eq!(rt; counts(depths(&IMAGE, 0, 0, &mut values)), (0, 0, 0));
    assert_eq!(rt; values, [7]);
    Ok(())
}

// One function, in exactly enough places, in one fewer and in one more.
#[test]
fn one_item(rt: HostRuntime) -> Result<(), Fail> {
    let mut values = [7];
    assert_eq!(rt; counts(depths(&IMAGE, 2, 0, &mut values)), (0, 1, 0));
    assert_eq!(rt; values, [1]);
    assert_eq!(rt; counts(depths(&IMAGE, 2, 0, &mut [])), (15, 0, 0));
    let mut values = [7, 7];
    assert_eq!(rt; counts(depths(&IMAGE, 2, 0, &mut values)), (0, 1, 0));
    assert_eq!(rt; values, [1, 7]);
    Ok(())
}

// Three global expressions, likewise.
#[test]
fn places(rt: HostRuntime) -> Result<(), Fail> {
    let mut values = [7, 7, 7];
    assert_eq!(rt; counts(depths(&IMAGE, 3, 0, &mut values)), (0, 3, 2));
    assert_eq!(rt; values, [1, 1, 2]);
    let mut values = [7, 7];
    assert_eq!(rt; counts(depths(&IMAGE, 3, 0, &mut values)), (15, 0, 0));
    assert_eq!(rt; values, [7, 7]);
    let mut values = [7, 7, 7, 7];
    assert_eq!(rt; counts(flags(&IMAGE, 3, 0, &mut values)), (0, 3, 2));
    assert_eq!(rt; values, [1, 1, 1, 7]);
    Ok(())
}

// The expressions of the function; there is no second function, no entry point and no filter.
#[test]
fn bodies(rt: HostRuntime) -> Result<(), Fail> {
    let mut values = [7, 7];
    assert_eq!(rt; counts(flags(&IMAGE, 4, 0, &mut values)), (0, 2, 1));
    assert_eq!(rt; values, [1, 0]);
    let mut values = [7, 7];
    assert_eq!(rt; counts(flags(&IMAGE, 4, 1, &mut values)), (14, 0, 0));
    assert_eq!(rt; counts(flags(&IMAGE, 5, 0, &mut values)), (14, 0, 0));
    assert_eq!(rt; counts(flags(&IMAGE, 1, 0, &mut values)), (0, 0, 0));
    assert_eq!(rt; values, [7, 7]);
    Ok(())
}

// An entry point with one literal, and no function.
#[test]
fn entry_point(rt: HostRuntime) -> Result<(), Fail> {
    let mut image = [255; 80];
    image[0] = 12;
    image[33] = 0;
    image[74] = 64;
    image[79] = 31;
    let mut values = [7];
    assert_eq!(rt; counts(depths(&image, 5, 0, &mut values)), (0, 1, 0));
    assert_eq!(rt; values, [1]);
    assert_eq!(rt; counts(depths(&image, 4, 0, &mut values)), (14, 0, 0));
    Ok(())
}

// A number of no table.
#[test]
fn unknown_table(rt: HostRuntime) -> Result<(), Fail> {
    let mut values = [7];
    assert_eq!(rt; counts(depths(&IMAGE, 6, 0, &mut values)), (14, 0, 0));
    assert_eq!(rt;
        counts(depths(&IMAGE, 4_294_967_295, 0, &mut values)),
        (14, 0, 0)
    );
    assert_eq!(rt; values, [7]);
    Ok(())
}

// What put or sealing refuses is answered before there is no such table: an unknown kind, and a product of itself.
#[test]
fn refused_images(rt: HostRuntime) -> Result<(), Fail> {
    let mut values = [7];
    assert_eq!(rt; counts(depths(&[0], 6, 0, &mut values)), (1, 0, 0));
    let product = [81, 0, 0, 0, 0, 0, 0, 0, 0, 0, 0, 0, 0];
    let walked = depths(&product, 6, 0, &mut values);
    assert_eq!(rt; counts(walked), (13, 0, 0));
    assert_eq!(rt;
        (walked.kind, walked.first, walked.second, walked.position),
        (6, 0, 0, 0)
    );
    assert_eq!(rt; values, [7]);
    Ok(())
}
