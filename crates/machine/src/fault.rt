// The faults, in the order of a step's checks.
ghost use Rattle.std.specs.Prelude.{◌≡◌};
ghost use Rattle.machine.specs.Faults.{fault_number};

// Why a step changes nothing. A run and a step tell it by its number, from 1 on.
#[derive(Clone, Copy, Debug, PartialEq, Eq)]
pub(crate) enum Fault {
    PlaceOutside,
    NoInstruction,
    ZeroWritten,
    AddressOutside,
    LabelOutside,
}

impl From<Fault> for u32 {
    ghost from_gives = { λ fault number. number ≡ fault_number fault };

    fn from(fault: Fault) -> u32 {
        fault as u32 + 1
    }
}
