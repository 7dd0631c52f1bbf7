// FIPS 197: the field (section 4) as far as the code needs it, which is doubling, and both substitution tables (5.1.1, 5.3.2).

#![tactic(auto)]

ghost use Rattle.std.specs.Prelude.{◌≡◌};
ghost use Rattle.field.specs.Field.{double};
ghost use Rattle.field.specs.Tables.{UndoEachOther};

pub mod inv_sbox;
pub mod sbox;

// xtime: the bits move up by one place, and the bit that falls out counts as 0x1B. By arithmetic on that bit: nothing is tested.
pub fn double(x: u8) -> u8
    ensures { result ≡ double x }
{
    (x << 1) ^ ((x >> 7) * 0x1b)
}

// Both tables, as they stand in the code.
#[derive(Drop)]
struct Tables {
    forward: [u8; 256],
    inverse: [u8; 256],
}

// Nothing calls it: its contract is the law that the code's tables undo each other.
fn both_tables() -> Tables
    ensures { UndoEachOther result.forward result.inverse }
{
    Tables {
        forward: sbox::SBOX,
        inverse: inv_sbox::INV_SBOX,
    }
}
