// What holds of every log. Each function stands for the theorem in its contract.
ghost use Rattle.log_record.specs.Theorems.{AcceptedIsWritten, WrittenIsAccepted, AcceptedIsInOrder, ReadIsWritten, AnsweredIsAccepted, OneAnswer, LogIsSound, PossibleAfterALog};

pub fn accepted_is_written()
    ensures { AcceptedIsWritten }
{}

pub fn written_is_accepted()
    ensures { WrittenIsAccepted }
{}

pub fn accepted_is_in_order()
    ensures { AcceptedIsInOrder }
{}

pub fn read_is_written()
    ensures { ReadIsWritten }
{}

pub fn answered_is_accepted()
    ensures { AnsweredIsAccepted }
{}

pub fn one_answer()
    ensures { OneAnswer }
{}

pub fn log_is_sound()
    ensures { LogIsSound }
{}

pub fn possible_after_a_log()
    ensures { PossibleAfterALog }
{}
