ghost use Rattle.std.specs.Prelude.{◌≡◌};
ghost use Rattle.part_image.specs.Slots.{IsReadBit, bit};

/// The fact that a byte stands for: 0 for no, 1 for yes; `None` where it stands for none.
pub fn fact_of(byte: u8) -> Option<bool>
    ensures { IsReadBit byte result }
{
    match byte {
        0 => Some(false),
        1 => Some(true),
        _ => None,
    }
}

/// The byte that stands for a fact.
pub fn bit_of(fact: bool) -> u8
    ensures { result ≡ bit fact }
{
    if fact { 1 } else { 0 }
}
