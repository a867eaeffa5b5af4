// What a question asks, and which fields it takes.
ghost use Rattle.std.specs.Prelude.{◌≡◌};
ghost use Rattle.cedar.specs.JobForm.{takes_mode, takes_attribute, takes_second};
ghost use Rattle.jobs.specs.Operations.{op, Decodes};

#[derive(Clone, Copy, Debug, PartialEq, Eq)]
pub enum Operation {
    Subtype,
    Bound,
    Disjoint,
    Lookup,
    MayHave,
    Names,
    Consistent,
    Convert,
    Conforms,
    Fold,
    Literal,
    Full,
}

// A number that no operation has.
#[derive(Clone, Copy, Debug, PartialEq, Eq)]
pub struct UnknownOperation(pub u8);

impl TryFrom<u8> for Operation {
    type Error = UnknownOperation;

    ghost try_from_gives = { Decodes };

    fn try_from(k: u8) -> Result<Operation, UnknownOperation> {
        match k {
            0 => Ok(Operation::Subtype),
            1 => Ok(Operation::Bound),
            2 => Ok(Operation::Disjoint),
            3 => Ok(Operation::Lookup),
            4 => Ok(Operation::MayHave),
            5 => Ok(Operation::Names),
            6 => Ok(Operation::Consistent),
            7 => Ok(Operation::Convert),
            8 => Ok(Operation::Conforms),
            9 => Ok(Operation::Fold),
            10 => Ok(Operation::Literal),
            11 => Ok(Operation::Full),
            _ => Err(UnknownOperation(k)),
        }
    }
}

impl Operation {
    pub fn takes_mode(self) -> bool
        ensures { result ≡ takes_mode (op self) }
    {
        matches!(
            self,
            Operation::Subtype | Operation::Bound | Operation::Fold
        )
    }

    pub fn takes_attribute(self) -> bool
        ensures { result ≡ takes_attribute (op self) }
    {
        matches!(self, Operation::Lookup | Operation::MayHave)
    }

    pub fn takes_second(self) -> bool
        ensures { result ≡ takes_second (op self) }
    {
        matches!(
            self,
            Operation::Subtype
                | Operation::Bound
                | Operation::Disjoint
                | Operation::Consistent
                | Operation::Conforms
                | Operation::Full
        )
    }
}
