// The theory of the record: reduced echelon form over every field. Each function stands for the theorem in its contract.
#![tactic(auto)]

ghost use Rattle.echelon.specs.Theorems.{PinnedAlone, BaseFits, DirectionFree, WitnessFits, AtMostOne, FixedLeavesNothing, LeftoverFits, JoinedForm, FormAgrees, FormKept, FormGrown, OwnForm, OneForm, SameFits};

pub fn pinned_alone()
    ensures { PinnedAlone }
{}

pub fn base_fits()
    ensures { BaseFits }
{}

pub fn direction_free()
    ensures { DirectionFree }
{}

pub fn witness_fits()
    ensures { WitnessFits }
{}

pub fn at_most_one()
    ensures { AtMostOne }
{}

pub fn fixed_leaves_nothing()
    ensures { FixedLeavesNothing }
{}

pub fn leftover_fits()
    ensures { LeftoverFits }
{}

pub fn joined_form()
    ensures { JoinedForm }
{}

pub fn form_agrees()
    ensures { FormAgrees }
{}

pub fn form_kept()
    ensures { FormKept }
{}

pub fn form_grown()
    ensures { FormGrown }
{}

pub fn own_form()
    ensures { OwnForm }
{}

pub fn one_form()
    ensures { OneForm }
{}

pub fn same_fits()
    ensures { SameFits }
{}
