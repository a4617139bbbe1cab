//! The integers of each type, and the shapes that read scalars alone.

use std::test::Fail;
use yaml_shape::{IntegerRange, IntegerType, Shape, ShapeId};

// The types with a sign, and the least and the greatest integer of each.
const SIGNED: &[(IntegerType, i128, i128)] = &[
    (IntegerType::I8, -128, 127),
    (IntegerType::I16, -32_768, 32_767),
    (IntegerType::I32, -2_147_483_648, 2_147_483_647),
    (
        IntegerType::I64,
        -9_223_372_036_854_775_808,
        9_223_372_036_854_775_807,
    ),
    (
        IntegerType::Isize,
        -9_223_372_036_854_775_808,
        9_223_372_036_854_775_807,
    ),
    (
        IntegerType::I128,
        -170_141_183_460_469_231_731_687_303_715_884_105_728,
        170_141_183_460_469_231_731_687_303_715_884_105_727,
    ),
];

// The types without a sign, and the greatest integer of each.
const UNSIGNED: &[(IntegerType, u128)] = &[
    (IntegerType::U8, 255),
    (IntegerType::U16, 65_535),
    (IntegerType::U32, 4_294_967_295),
    (IntegerType::U64, 18_446_744_073_709_551_615),
    (IntegerType::Usize, 18_446_744_073_709_551_615),
    (
        IntegerType::U128,
        340_282_366_920_938_463_463_374_607_431_768_211_455,
    ),
];

// The shape of the integers of a type.
fn shape_of(kind: IntegerType) -> Shape {
    match kind {
        IntegerType::I8 => Shape::I8,
        IntegerType::I16 => Shape::I16,
        IntegerType::I32 => Shape::I32,
        IntegerType::I64 => Shape::I64,
        IntegerType::I128 => Shape::I128,
        IntegerType::Isize => Shape::Isize,
        IntegerType::U8 => Shape::U8,
        IntegerType::U16 => Shape::U16,
        IntegerType::U32 => Shape::U32,
        IntegerType::U64 => Shape::U64,
        IntegerType::U128 => Shape::U128,
        IntegerType::Usize => Shape::Usize,
    }
}

// Whether a type has a sign, and these integers and none beside them.
fn is_signed(kind: IntegerType, least: i128, greatest: i128) -> bool {
    kind.has_sign()
        && kind.range() == IntegerRange::Signed { least, greatest }
        && kind.takes_signed(least)
        && kind.takes_signed(greatest)
        && !least
            .checked_sub(1)
            .is_some_and(|below| kind.takes_signed(below))
        && !greatest
            .checked_add(1)
            .is_some_and(|above| kind.takes_signed(above))
        && !kind.takes_unsigned(0)
}

// Whether a type has no sign, and the integers up to this one and none above.
fn is_unsigned(kind: IntegerType, greatest: u128) -> bool {
    !kind.has_sign()
        && kind.range() == IntegerRange::Unsigned { greatest }
        && kind.takes_unsigned(0)
        && kind.takes_unsigned(greatest)
        && !greatest
            .checked_add(1)
            .is_some_and(|above| kind.takes_unsigned(above))
        && !kind.takes_signed(0)
}

// Whether the shape of a type reads scalars alone, as the integers of that type.
fn has_shape(kind: IntegerType) -> bool {
    let shape = shape_of(kind);
    shape.is_leaf() && shape.integer() == Some(kind)
}

#[test]
fn integers_lie_in_the_range_of_their_type(rt: HostRuntime) -> Result<(), Fail> {
    for (kind, least, greatest) in SIGNED {
        assert!(rt;
            has_shape(*kind) && is_signed(*kind, *least, *greatest),
            "{greatest}"
        );
    }
    for (kind, greatest) in UNSIGNED {
        assert!(rt;
            has_shape(*kind) && is_unsigned(*kind, *greatest),
            "{greatest}"
        );
    }
    for shape in [
        Shape::Bool,
        Shape::Char,
        Shape::Str,
        Shape::Identifier,
        Shape::Unit,
    ] {
        assert!(rt; shape.is_leaf() && shape.integer().is_none());
    }
    for shape in [
        Shape::Any,
        Shape::Bytes,
        Shape::IgnoredAny,
        Shape::Seq(ShapeId(0)),
    ] {
        assert!(rt; !shape.is_leaf());
    }
    Ok(())
}
