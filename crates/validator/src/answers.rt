ghost use Rattle.std.specs.Prelude.{◌≡◌};
ghost use Rattle.cedar.specs.Outcome.{said};
ghost use Rattle.cedar.specs.Result.{ok};
ghost use Rattle.validator.specs.Answers.{answer_of};

// What an entry answers that does not refuse: yes or no; none; how many bytes and levels a form has that it measured; the same of a type
// that it wrote; of an attribute's type, behind whether it is required; how many bytes a name list has that it wrote.
#[derive(Clone, Copy)]
pub enum Answer {
    Yes,
    No,
    Nothing,
    Measured(usize, usize),
    Typed(usize, usize),
    Attribute(bool, usize, usize),
    Named(usize),
}

// A test's answer.
pub fn yes_or_no(yes: bool) -> Answer
    ensures { ok result ≡ answer_of (said yes) }
{
    if yes {
        return Answer::Yes;
    }
    Answer::No
}
