//! The integer types that a shape may ask for, and the integers of each.

ghost use Rattle.std.specs.Prelude.{◌≡◌, ◌&&◌, pos, not};
ghost use Rattle.yaml_shape.specs.IntegerTypes.{has_sign, is_of_type};
ghost use Rattle.yaml_shape.specs.IntegerView.{integer_type_of, IsRangeOf};

/// An integer type that a shape may ask for.
#[derive(Clone, Copy, PartialEq, Eq)]
pub enum IntegerType {
    /// Of 8 bits with a sign.
    I8,
    /// Of 16 bits with a sign.
    I16,
    /// Of 32 bits with a sign.
    I32,
    /// Of 64 bits with a sign.
    I64,
    /// Of 128 bits with a sign.
    I128,
    /// Of the machine's width, 64 bits, with a sign.
    Isize,
    /// Of 8 bits without a sign.
    U8,
    /// Of 16 bits without a sign.
    U16,
    /// Of 32 bits without a sign.
    U32,
    /// Of 64 bits without a sign.
    U64,
    /// Of 128 bits without a sign.
    U128,
    /// Of the machine's width, 64 bits, without a sign.
    Usize,
}

/// The integers of a type: the least and the greatest.
#[derive(Clone, Copy, PartialEq, Eq)]
pub enum IntegerRange {
    /// Integers with a sign.
    Signed { least: i128, greatest: i128 },
    /// Integers without a sign, from 0 on.
    Unsigned { greatest: u128 },
}

impl IntegerType {
    /// The integers of the type.
    #[inline(always)]
    pub fn range(self) -> IntegerRange
        ensures { IsRangeOf (integer_type_of self) result }
    {
        match self {
            IntegerType::I8 => IntegerRange::Signed {
                least: i8::MIN as i128,
                greatest: i8::MAX as i128,
            },
            IntegerType::I16 => IntegerRange::Signed {
                least: i16::MIN as i128,
                greatest: i16::MAX as i128,
            },
            IntegerType::I32 => IntegerRange::Signed {
                least: i32::MIN as i128,
                greatest: i32::MAX as i128,
            },
            IntegerType::I64 | IntegerType::Isize => IntegerRange::Signed {
                least: i64::MIN as i128,
                greatest: i64::MAX as i128,
            },
            IntegerType::I128 => IntegerRange::Signed {
                least: i128::MIN,
                greatest: i128::MAX,
            },
            IntegerType::U8 => IntegerRange::Unsigned {
                greatest: u8::MAX as u128,
            },
            IntegerType::U16 => IntegerRange::Unsigned {
                greatest: u16::MAX as u128,
            },
            IntegerType::U32 => IntegerRange::Unsigned {
                greatest: u32::MAX as u128,
            },
            IntegerType::U64 | IntegerType::Usize => IntegerRange::Unsigned {
                greatest: u64::MAX as u128,
            },
            IntegerType::U128 => IntegerRange::Unsigned {
                greatest: u128::MAX,
            },
        }
    }

    /// Whether the type has a sign.
    #[inline(always)]
    pub fn has_sign(self) -> bool
        ensures { result ≡ has_sign (integer_type_of self) }
    {
        matches!(
            self.range(),
            IntegerRange::Signed {
                least: _,
                greatest: _
            }
        )
    }

    /// Whether the integer with a sign is one of the type.
    #[inline(always)]
    pub fn takes_signed(self, integer: i128) -> bool
        ensures { result ≡ (has_sign (integer_type_of self) && is_of_type (integer_type_of self) integer) }
    {
        match self.range() {
            IntegerRange::Signed { least, greatest } => least <= integer && integer <= greatest,
            IntegerRange::Unsigned { greatest: _ } => false,
        }
    }

    /// Whether the integer without a sign is one of the type.
    #[inline(always)]
    pub fn takes_unsigned(self, integer: u128) -> bool
        ensures { result
            ≡ (not (has_sign (integer_type_of self)) && is_of_type (integer_type_of self) (pos integer)) }
    {
        match self.range() {
            IntegerRange::Signed {
                least: _,
                greatest: _,
            } => false,
            IntegerRange::Unsigned { greatest } => integer <= greatest,
        }
    }
}
