//! Integers of 64 bits, signed or not.
ghost use Rattle.std.specs.Prelude.{◌≡◌, true};
ghost use Rattle.yaml_tree.specs.Integer.{is_canonical};

use std::fmt;

/// The two forms of an integer. One that is 0 or above has the first.
#[derive(Clone, Copy, Drop)]
pub(crate) enum Integer {
    Unsigned(u64),
    Negative(i64),
}

/// An integer: a `u64` or a negative `i64`.
#[derive(Clone, Copy, Drop)]
pub struct Number {
    pub(crate) integer: Integer,
    ghost canonical: { is_canonical integer ≡ true },
}

impl Number {
    ghost use Rattle.std.specs.Prelude.{◌≡◌, pos};
    ghost use Rattle.yaml_tree.specs.Integer.{as_i64, as_u64};
    ghost use Rattle.yaml_tree.specs.Number.{number_of};

    /// The number of a `u64`.
    pub fn from_u64(n: u64) -> Number
        ensures { number_of result ≡ pos n }
    {
        Number {
            integer: Integer::Unsigned(n),
        }
    }

    /// The number of an `i64`: 0 and above as the `u64` of that value.
    pub fn from_i64(n: i64) -> Number
        ensures { number_of result ≡ n }
    {
        if n < 0 {
            Number {
                integer: Integer::Negative(n),
            }
        } else {
            Number::from_u64(n as u64)
        }
    }

    /// The number as a `u64`, or `None` where it is below 0.
    pub fn as_u64(self) -> Option<u64>
        ensures { result ≡ as_u64 (number_of self) }
    {
        match self.integer {
            Integer::Unsigned(n) => Some(n),
            Integer::Negative(_) => None,
        }
    }

    /// The number as an `i64`, or `None` where it is above the greatest of them.
    pub fn as_i64(self) -> Option<i64>
        ensures { result ≡ as_i64 (number_of self) }
    {
        match self.integer {
            Integer::Unsigned(n) => {
                if n <= i64::MAX as u64 {
                    Some(n as i64)
                } else {
                    None
                }
            }
            Integer::Negative(n) => Some(n),
        }
    }
}

impl PartialEq for Number {
    ghost use Rattle.std.specs.Cmp.{int_eq_equiv, on_per, partial_equiv_from_equiv};
    ghost use Rattle.std.specs.Ordering.{int_eq};
    ghost use Rattle.yaml_tree.specs.Number.{number_of};

    ghost eq = { λ a b. int_eq (number_of a) (number_of b) };

    ghost laws = { on_per number_of (partial_equiv_from_equiv int_eq_equiv) };

    fn eq(&self, other: &Number) -> bool {
        match (self.integer, other.integer) {
            (Integer::Unsigned(a), Integer::Unsigned(b)) => a == b,
            (Integer::Negative(a), Integer::Negative(b)) => a == b,
            _ => false,
        }
    }
}

impl Eq for Number {
    ghost use Rattle.std.specs.Cmp.{int_eq_equiv, on_equiv};
    ghost use Rattle.yaml_tree.specs.Number.{number_of};

    ghost laws = { on_equiv number_of int_eq_equiv };
}

impl fmt::Debug for Number {
    ghost use Rattle.std.specs.Prelude.{Some};
    ghost use Rattle.std.specs.Fmt.{signed_decimal};
    ghost use Rattle.yaml_tree.specs.Number.{number_of};

    ghost debug_output = { λ x. Some (signed_decimal (number_of x)) };

    fn fmt<W: fmt::Write>(&self, f: &mut fmt::Formatter<W>) -> fmt::Result {
        write!(f, "{self}")
    }
}

impl fmt::Display for Number {
    ghost use Rattle.std.specs.Prelude.{Some};
    ghost use Rattle.std.specs.Fmt.{signed_decimal};
    ghost use Rattle.yaml_tree.specs.Number.{number_of};

    ghost output = { λ x. Some (signed_decimal (number_of x)) };

    fn fmt<W: fmt::Write>(&self, f: &mut fmt::Formatter<W>) -> fmt::Result {
        match self.integer {
            Integer::Unsigned(n) => n.fmt(f),
            Integer::Negative(n) => n.fmt(f),
        }
    }
}
