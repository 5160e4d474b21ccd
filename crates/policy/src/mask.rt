// Sets of small numbers as masks: bit i stands for the number i.
ghost use Rattle.std.specs.Prelude.{◌≡◌, ◌*◌, ◌%◌, ◌^◌};
ghost use Rattle.policy.specs.Masks.{bit};

/// The mask of one number; of one that no mask has room for, the empty mask.
pub fn mask_of(number: u8) -> u64
    ensures { result ≡ (1 * 2 ^ number) % 2 ^ 64 }
{
    if number < 64 { 1 << number } else { 0 }
}

/// The mask of one condition; of one that no mask of conditions has room for, the empty mask.
pub fn condition_bit(condition: u8) -> u16
    ensures { result ≡ (1 * 2 ^ condition) % 2 ^ 16 }
{
    (mask_of(condition) & 0xffff) as u16
}

/// Whether a mask has this number.
pub fn has(mask: u64, number: u8) -> bool
    ensures { result ≡ bit number mask }
{
    number < 64 && (mask >> number) & 1 == 1
}
