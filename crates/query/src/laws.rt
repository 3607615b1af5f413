// Laws of the reader.
ghost use Rattle.query.specs.Laws.{ReadsBack};
ghost use Rattle.query.specs.Worked.{WorkedFaults};

// Reader and writer of decimals agree: a number of at most five digits, written in decimal, is read as itself.
pub fn decimals_read_back()
    ensures { ReadsBack 100000 }
{}

// The faults that docs/RULES.md works by hand, over a field of 65521 elements.
pub fn worked_faults()
    ensures { WorkedFaults 65521 }
{}
