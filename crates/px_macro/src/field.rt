//! Fields: where a number is in the memory of a pixel.
ghost use Rattle.px_macro.specs.FieldLaws.{
  BitBesideIsKept,
  BitsOfNumber,
  NumberBesideIsKept,
  NumberIsBelow,
  NumberIsKept,
  NumberIsRead,
  NumberOfParts,
  PlacesAreWritten,
};

/// `len` bits of the memory from place `at` on, the lowest bit first
/// (docs/MACHINE.md, "Broadcast operations").
#[derive(Clone, Copy)]
pub struct Field {
    pub at: u32,
    pub len: u32,
}

/// The laws of numbers in fields, for whoever reasons of several of them.
pub fn laws_of_fields()
    ensures bits { BitsOfNumber }
    ensures below { NumberIsBelow }
    ensures written { PlacesAreWritten }
    ensures read { NumberIsRead }
    ensures kept { NumberIsKept }
    ensures bit_beside { BitBesideIsKept }
    ensures number_beside { NumberBesideIsKept }
    ensures parts { NumberOfParts }
{}
