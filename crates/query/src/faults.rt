// What can be wrong with a line, in layers: a digit, a number, an item, the line. Each fault holds the one below it.
ghost use Rattle.std.specs.Prelude.{◌≡◌};
ghost use Rattle.query.specs.declared.faults.NumberFault.TheVariants.{NoDigit};
ghost use Rattle.query.specs.declared.faults.ItemFault.TheVariants.{Number};
ghost use Rattle.query.specs.declared.faults.LineFault.TheVariants.{Item};

use refusal::BytePlace;

// No digit stands at the place: another byte, or the line's end.
#[derive(Clone, Copy, PartialEq, Eq, Debug)]
pub struct DigitFault(pub BytePlace);

// Each place is that of the number's first byte.
#[derive(Clone, Copy, PartialEq, Eq, Debug)]
pub enum NumberFault {
    NoDigit(DigitFault),
    LeadingZero(BytePlace),
    TooManyDigits(BytePlace),
    OutOfRange(BytePlace),
}

#[derive(Clone, Copy, PartialEq, Eq, Debug)]
pub enum ItemFault {
    // No space stands where an item should begin.
    NoSpace(BytePlace),
    Number(NumberFault),
    // The member was named before in the line.
    Repeated(BytePlace),
}

#[derive(Clone, Copy, PartialEq, Eq, Debug)]
pub enum LineFault {
    TooLong,
    // The line is empty, or its first character begins no line.
    NoKind,
    Item(ItemFault),
    // Something follows the last item.
    NotEnded(BytePlace),
}

impl From<DigitFault> for NumberFault {
    ghost from_gives = { λ f r. r ≡ NoDigit f };

    fn from(fault: DigitFault) -> NumberFault {
        NumberFault::NoDigit(fault)
    }
}

impl From<NumberFault> for ItemFault {
    ghost from_gives = { λ f r. r ≡ Number f };

    fn from(fault: NumberFault) -> ItemFault {
        ItemFault::Number(fault)
    }
}

impl From<ItemFault> for LineFault {
    ghost from_gives = { λ f r. r ≡ Item f };

    fn from(fault: ItemFault) -> LineFault {
        LineFault::Item(fault)
    }
}
