//! Numbers: integers of 128 bits, signed or not, and floats.

ghost use Rattle.std.specs.Prelude.{◌≡◌, Some, is_some, pos, true};
ghost use Rattle.yaml_value.specs.Forms.{is_canonical};
ghost use Rattle.yaml_value.specs.Hash.{float_hash, integer_hash};
ghost use Rattle.yaml_value.specs.PlainEqual.{same_float};

use ryu::Buffer;
use std::cmp::OrderedFloat;
use std::fmt;
use std::hash::{FoldHasher, Hash, Hasher};
use std::num::{nearest_i64_to_f64, nearest_u64_to_f64};
use yaml_float::print_f64;

/// The forms of a number. An integer that is 0 or above has the first.
#[derive(Clone, Copy, Drop)]
pub(crate) enum Form {
    Unsigned(u128),
    Negative(i128),
    Float(f64),
}

/// A number: an integer from the least `i128` to the greatest `u128`, or an `f64`.
#[derive(Clone, Copy, Drop)]
pub struct Number {
    pub(crate) form: Form,
    ghost canonical: { is_canonical form ≡ true },
}

impl Number {
    ghost use Rattle.std.specs.Prelude.{◌≡◌, Some, is_some, pos};
    ghost use Rattle.yaml_value.specs.Hash.{hash_of};
    ghost use Rattle.yaml_value.specs.Numbers.{as_f64, as_i128, as_i64, as_u128, as_u64, float_in, integer_in};
    ghost use Rattle.yaml_value.specs.PlainEqual.{plain_eq};
    ghost use Rattle.yaml_value.specs.View.{plain_number};

    /// The number of an integer that is 0 or above.
    pub fn from_u128(n: u128) -> Number
        ensures { integer_in result ≡ Some (pos n) }
    {
        Number {
            form: Form::Unsigned(n),
        }
    }

    /// The number of an integer.
    pub fn from_i128(n: i128) -> Number
        ensures { integer_in result ≡ Some n }
    {
        match u128::try_from(n) {
            Ok(n) => Number::from_u128(n),
            Err(_) => Number {
                form: Form::Negative(n),
            },
        }
    }

    /// The number of a float, which stays one where it is whole.
    pub fn from_f64(x: f64) -> Number
        ensures { float_in result ≡ Some x }
    {
        Number {
            form: Form::Float(x),
        }
    }

    /// The integer that it is, as a `u128`; `None` where it is below 0, and of a float.
    pub fn as_u128(self) -> Option<u128>
        ensures { result ≡ as_u128 self }
    {
        match self.form {
            Form::Unsigned(n) => Some(n),
            Form::Negative(n) => u128::try_from(n).ok(),
            Form::Float(_) => None,
        }
    }

    /// The integer that it is, as an `i128`; `None` where it is above the greatest of them, and of a float.
    pub fn as_i128(self) -> Option<i128>
        ensures { result ≡ as_i128 self }
    {
        match self.form {
            Form::Unsigned(n) => i128::try_from(n).ok(),
            Form::Negative(n) => Some(n),
            Form::Float(_) => None,
        }
    }

    /// The same as a `u64`.
    pub fn as_u64(self) -> Option<u64>
        ensures { result ≡ as_u64 self }
    {
        u64::try_from(self.as_u128()?).ok()
    }

    /// The same as an `i64`.
    pub fn as_i64(self) -> Option<i64>
        ensures { result ≡ as_i64 self }
    {
        i64::try_from(self.as_i128()?).ok()
    }

    /// The float that it is, or the one nearest to the integer that it is; `None` of an integer beyond 64 bits.
    pub fn as_f64(self) -> Option<f64>
        ensures { result ≡ as_f64 self }
    {
        if let Form::Float(x) = self.form {
            return Some(x);
        }
        match (self.as_u64(), self.as_i64()) {
            (Some(n), _) => Some(nearest_u64_to_f64(n)),
            (None, Some(n)) => Some(nearest_i64_to_f64(n)),
            (None, None) => None,
        }
    }

    /// Whether it is a float.
    pub fn is_float(self) -> bool
        ensures { result ≡ is_some (float_in self) }
    {
        matches!(self.form, Form::Float(_))
    }

    /// Whether both are the same integer, or the same float. What is no number is the same as itself, and 0.0 as -0.0.
    /// No integer is the same as a float.
    pub fn equals(self, other: Number) -> bool
        ensures { result ≡ plain_eq (plain_number self) (plain_number other) }
    {
        match (self.form, other.form) {
            (Form::Unsigned(a), Form::Unsigned(b)) => a == b,
            (Form::Negative(a), Form::Negative(b)) => a == b,
            (Form::Float(a), Form::Float(b)) => same_floats(a, b),
            _ => false,
        }
    }

    // Numbers that are the same have one hash.
    pub(crate) fn hash(self) -> u64
        ensures { result ≡ hash_of (plain_number self) }
    {
        match self.form {
            Form::Unsigned(n) => hash_integer(n),
            Form::Negative(n) => hash_integer(n.unsigned_abs()),
            Form::Float(x) => hash_float(x),
        }
    }
}

fn same_floats(a: f64, b: f64) -> bool
    ensures { result ≡ same_float a b }
{
    if a.is_nan() {
        return b.is_nan();
    }
    a == b
}

fn hash_integer(n: u128) -> u64
    ensures { result ≡ integer_hash (pos n) }
{
    let mut hasher = FoldHasher::default();
    hasher.write_u128(n);
    hasher.finish()
}

// Floats that are no number have one hash, and so have both zeros.
fn hash_float(x: f64) -> u64
    ensures { result ≡ float_hash x }
{
    let mut hasher = FoldHasher::default();
    OrderedFloat(x).hash(&mut hasher);
    hasher.finish()
}

/// The number as YAML has it: a float with a point or an exponent, or as `.inf`, `-.inf` or `.nan`.
impl fmt::Display for Number {
    ghost use Rattle.yaml_value.specs.Numbers.{integer_text};

    ghost output = { integer_text };

    fn fmt<W: fmt::Write>(&self, f: &mut fmt::Formatter<W>) -> fmt::Result {
        match self.form {
            Form::Unsigned(n) => write!(f, "{n}"),
            Form::Negative(n) => write!(f, "{n}"),
            Form::Float(x) => f.write_str(print_f64(&mut Buffer::new(), x)),
        }
    }
}

impl fmt::Debug for Number {
    fn fmt<W: fmt::Write>(&self, f: &mut fmt::Formatter<W>) -> fmt::Result {
        write!(f, "{self}")
    }
}
