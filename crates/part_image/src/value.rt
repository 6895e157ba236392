ghost use Rattle.std.specs.Prelude.{◌≡◌};
ghost use Rattle.part_image.specs.Slots.{IsReadValue, IsValue, bits_of, flag_of};

use base_types::Value;

/// What a row with this flag and this number holds; `None` where it is no row's.
pub fn value_of(flag: u8, bits: u64) -> Option<Value>
    ensures { IsReadValue flag bits result }
{
    match (flag, bits) {
        (0, 0) => Some(Value::Absent),
        (1, _) => Some(Value::Num(bits.cast_signed())),
        _ => None,
    }
}

/// The flag of what a row holds.
pub fn flag_of(value: Value) -> u8
    ensures { result ≡ flag_of value }
{
    match value {
        Value::Absent => 0,
        Value::Num(_) => 1,
    }
}

/// The number that a row holds, as two's complement; 0 for nothing.
pub fn bits_of(value: Value) -> u64
    ensures { result ≡ bits_of value }
{
    match value {
        Value::Absent => 0,
        Value::Num(number) => number.cast_unsigned(),
    }
}
