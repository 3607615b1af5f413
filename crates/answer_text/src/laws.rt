// The longest line.
ghost use Rattle.answer_text.specs.AnswerLines.{LinesFit};

// A line of at most 64 numbers of five digits takes no more room than a replay keeps free before each line.
pub fn lines_fit()
    ensures { LinesFit 392 }
{}
