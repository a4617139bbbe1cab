//! Values of what is at hand. None of these takes memory.

use crate::mapping::Mapping;
use crate::number::Number;
use crate::sequence::Sequence;
use crate::value::Value;

impl From<()> for Value {
    ghost use Rattle.std.specs.Prelude.{◌≡◌};
    ghost use Rattle.yaml_value.specs.PlainValue.{null};
    ghost use Rattle.yaml_value.specs.View.{plain};

    ghost from_gives = { λ unit value. plain value ≡ null };

    fn from(_: ()) -> Value {
        Value::Null
    }
}

impl From<bool> for Value {
    ghost use Rattle.std.specs.Prelude.{◌≡◌};
    ghost use Rattle.yaml_value.specs.PlainValue.{boolean};
    ghost use Rattle.yaml_value.specs.View.{plain};

    ghost from_gives = { λ truth value. plain value ≡ boolean truth };

    fn from(truth: bool) -> Value {
        Value::Bool(truth)
    }
}

impl From<Number> for Value {
    ghost use Rattle.std.specs.Prelude.{◌≡◌};
    ghost use Rattle.yaml_value.specs.View.{plain, plain_number};

    ghost from_gives = { λ number value. plain value ≡ plain_number number };

    fn from(number: Number) -> Value {
        Value::Number(number)
    }
}

impl From<String> for Value {
    ghost use Rattle.std.specs.Prelude.{◌≡◌, string_bytes};
    ghost use Rattle.yaml_value.specs.PlainValue.{text};
    ghost use Rattle.yaml_value.specs.View.{plain};

    ghost from_gives = { λ string value. plain value ≡ text (string_bytes string) };

    fn from(text: String) -> Value {
        Value::String(text)
    }
}

impl From<Vec<Value>> for Value {
    ghost use Rattle.std.specs.Prelude.{◌≡◌};
    ghost use Rattle.yaml_value.specs.PlainValue.{sequence};
    ghost use Rattle.yaml_value.specs.View.{plain, plain_items};

    ghost from_gives = { λ items value. plain value ≡ sequence (plain_items items.items) };

    fn from(items: Vec<Value>) -> Value {
        Value::Sequence(Sequence::from(items))
    }
}

impl From<Sequence> for Value {
    ghost use Rattle.std.specs.Prelude.{◌≡◌};
    ghost use Rattle.yaml_value.specs.PlainValue.{sequence};
    ghost use Rattle.yaml_value.specs.View.{plain, plain_sequence};

    ghost from_gives = { λ items value. plain value ≡ sequence (plain_sequence items) };

    fn from(sequence: Sequence) -> Value {
        Value::Sequence(sequence)
    }
}

impl From<Mapping> for Value {
    ghost use Rattle.std.specs.Prelude.{◌≡◌};
    ghost use Rattle.yaml_value.specs.PlainValue.{mapping};
    ghost use Rattle.yaml_value.specs.View.{plain, plain_pairs};

    ghost from_gives = { λ pairs value. plain value ≡ mapping (plain_pairs pairs) };

    fn from(mapping: Mapping) -> Value {
        Value::Mapping(mapping)
    }
}

impl From<f64> for Value {
    ghost use Rattle.std.specs.Prelude.{◌≡◌};
    ghost use Rattle.yaml_value.specs.PlainValue.{float};
    ghost use Rattle.yaml_value.specs.View.{plain};

    ghost from_gives = { λ x value. plain value ≡ float x };

    fn from(x: f64) -> Value {
        Value::Number(Number::from_f64(x))
    }
}

impl From<u128> for Value {
    ghost use Rattle.std.specs.Prelude.{◌≡◌, pos};
    ghost use Rattle.yaml_value.specs.PlainValue.{integer};
    ghost use Rattle.yaml_value.specs.View.{plain};

    ghost from_gives = { λ n value. plain value ≡ integer (pos n) };

    fn from(n: u128) -> Value {
        Value::Number(Number::from_u128(n))
    }
}

impl From<i128> for Value {
    ghost use Rattle.std.specs.Prelude.{◌≡◌};
    ghost use Rattle.yaml_value.specs.PlainValue.{integer};
    ghost use Rattle.yaml_value.specs.View.{plain};

    ghost from_gives = { λ n value. plain value ≡ integer n };

    fn from(n: i128) -> Value {
        Value::Number(Number::from_i128(n))
    }
}

impl From<u8> for Value {
    ghost use Rattle.std.specs.Prelude.{◌≡◌, pos};
    ghost use Rattle.yaml_value.specs.PlainValue.{integer};
    ghost use Rattle.yaml_value.specs.View.{plain};

    ghost from_gives = { λ n value. plain value ≡ integer (pos n) };

    fn from(n: u8) -> Value {
        Value::Number(Number::from_u128(n as u128))
    }
}

impl From<u16> for Value {
    ghost use Rattle.std.specs.Prelude.{◌≡◌, pos};
    ghost use Rattle.yaml_value.specs.PlainValue.{integer};
    ghost use Rattle.yaml_value.specs.View.{plain};

    ghost from_gives = { λ n value. plain value ≡ integer (pos n) };

    fn from(n: u16) -> Value {
        Value::Number(Number::from_u128(n as u128))
    }
}

impl From<u32> for Value {
    ghost use Rattle.std.specs.Prelude.{◌≡◌, pos};
    ghost use Rattle.yaml_value.specs.PlainValue.{integer};
    ghost use Rattle.yaml_value.specs.View.{plain};

    ghost from_gives = { λ n value. plain value ≡ integer (pos n) };

    fn from(n: u32) -> Value {
        Value::Number(Number::from_u128(n as u128))
    }
}

impl From<u64> for Value {
    ghost use Rattle.std.specs.Prelude.{◌≡◌, pos};
    ghost use Rattle.yaml_value.specs.PlainValue.{integer};
    ghost use Rattle.yaml_value.specs.View.{plain};

    ghost from_gives = { λ n value. plain value ≡ integer (pos n) };

    fn from(n: u64) -> Value {
        Value::Number(Number::from_u128(n as u128))
    }
}

impl From<usize> for Value {
    ghost use Rattle.std.specs.Prelude.{◌≡◌, pos};
    ghost use Rattle.yaml_value.specs.PlainValue.{integer};
    ghost use Rattle.yaml_value.specs.View.{plain};

    ghost from_gives = { λ n value. plain value ≡ integer (pos n) };

    fn from(n: usize) -> Value {
        Value::Number(Number::from_u128(n as u128))
    }
}

impl From<i8> for Value {
    ghost use Rattle.std.specs.Prelude.{◌≡◌};
    ghost use Rattle.yaml_value.specs.PlainValue.{integer};
    ghost use Rattle.yaml_value.specs.View.{plain};

    ghost from_gives = { λ n value. plain value ≡ integer n };

    fn from(n: i8) -> Value {
        Value::Number(Number::from_i128(n as i128))
    }
}

impl From<i16> for Value {
    ghost use Rattle.std.specs.Prelude.{◌≡◌};
    ghost use Rattle.yaml_value.specs.PlainValue.{integer};
    ghost use Rattle.yaml_value.specs.View.{plain};

    ghost from_gives = { λ n value. plain value ≡ integer n };

    fn from(n: i16) -> Value {
        Value::Number(Number::from_i128(n as i128))
    }
}

impl From<i32> for Value {
    ghost use Rattle.std.specs.Prelude.{◌≡◌};
    ghost use Rattle.yaml_value.specs.PlainValue.{integer};
    ghost use Rattle.yaml_value.specs.View.{plain};

    ghost from_gives = { λ n value. plain value ≡ integer n };

    fn from(n: i32) -> Value {
        Value::Number(Number::from_i128(n as i128))
    }
}

impl From<i64> for Value {
    ghost use Rattle.std.specs.Prelude.{◌≡◌};
    ghost use Rattle.yaml_value.specs.PlainValue.{integer};
    ghost use Rattle.yaml_value.specs.View.{plain};

    ghost from_gives = { λ n value. plain value ≡ integer n };

    fn from(n: i64) -> Value {
        Value::Number(Number::from_i128(n as i128))
    }
}

impl From<isize> for Value {
    ghost use Rattle.std.specs.Prelude.{◌≡◌};
    ghost use Rattle.yaml_value.specs.PlainValue.{integer};
    ghost use Rattle.yaml_value.specs.View.{plain};

    ghost from_gives = { λ n value. plain value ≡ integer n };

    fn from(n: isize) -> Value {
        Value::Number(Number::from_i128(n as i128))
    }
}
