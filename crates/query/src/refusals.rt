// The refusal that each fault counts as.
ghost use Rattle.std.specs.Prelude.{◌≡◌};
ghost use Rattle.query.specs.Refusals.{digit_refusal, number_refusal, item_refusal, line_refusal};

use crate::faults::{DigitFault, ItemFault, LineFault, NumberFault};
use crate::lines::LONGEST;
use refusal::{BytePlace, Refusal};

impl From<DigitFault> for Refusal {
    ghost from_gives = { λ f r. r ≡ digit_refusal f };

    fn from(fault: DigitFault) -> Refusal {
        Refusal::UnexpectedByte(fault.0)
    }
}

impl From<NumberFault> for Refusal {
    ghost from_gives = { λ f r. r ≡ number_refusal f };

    fn from(fault: NumberFault) -> Refusal {
        match fault {
            NumberFault::NoDigit(fault) => Refusal::from(fault),
            NumberFault::LeadingZero(place)
            | NumberFault::TooManyDigits(place)
            | NumberFault::OutOfRange(place) => Refusal::BadNumber(place),
        }
    }
}

impl From<ItemFault> for Refusal {
    ghost from_gives = { λ f r. r ≡ item_refusal f };

    fn from(fault: ItemFault) -> Refusal {
        match fault {
            ItemFault::NoSpace(place) => Refusal::UnexpectedByte(place),
            ItemFault::Number(fault) => Refusal::from(fault),
            ItemFault::Repeated(place) => Refusal::MemberRepeated(place),
        }
    }
}

impl From<LineFault> for Refusal {
    ghost from_gives = { λ f r. r ≡ line_refusal f };

    fn from(fault: LineFault) -> Refusal {
        match fault {
            LineFault::TooLong => Refusal::LineTooLong(BytePlace(LONGEST)),
            LineFault::NoKind => Refusal::UnexpectedByte(BytePlace(0)),
            LineFault::Item(fault) => Refusal::from(fault),
            LineFault::NotEnded(place) => Refusal::UnexpectedByte(place),
        }
    }
}
