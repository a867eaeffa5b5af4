// Verdicts of a walk down a value.
ghost use Rattle.std.specs.Prelude.{◌≡◌};
ghost use Rattle.cedar.specs.Conformance.{verdict};
ghost use Rattle.conformance.specs.Verdicts.{verdict_of, inside_of};

// Yes; no; no, after an unknown function inside an argument; or an unknown function that it reaches.
#[derive(Clone, Copy, Debug, PartialEq, Eq)]
pub enum Verdict {
    Holds,
    Fails,
    FailsInside,
    Unknown,
}

// A test as a verdict.
pub fn tested(b: bool) -> Verdict
    ensures { result ≡ verdict_of (verdict b) }
{
    if b { Verdict::Holds } else { Verdict::Fails }
}

// Inside an argument an unknown function is a no.
pub fn inside(said: Verdict) -> Verdict
    ensures { result ≡ inside_of said }
{
    match said {
        Verdict::Unknown => Verdict::FailsInside,
        Verdict::Holds | Verdict::Fails | Verdict::FailsInside => said,
    }
}
