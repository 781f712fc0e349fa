// Why a suite refuses a body. A fault passes up by `?`: from head or open to what became of a piece, and from there to
// the link's own refusal, which keeps it inside.
ghost use Rattle.std.specs.Prelude.{◌≡◌};
ghost use Rattle.suite.specs.declared.faults.PieceFault.TheVariants.{Head, Open};

// Why head refuses.
#[derive(Clone, Copy, PartialEq, Eq, Debug)]
pub enum HeadFault {
    // shorter than head, one octet and tail
    Short,
    // long enough, but without the suite's mark
    Unmarked,
}

// Why open refuses.
#[derive(Clone, Copy, PartialEq, Eq, Debug)]
pub enum OpenFault {
    // longer than head, the longest piece and tail
    Long,
    // no piece, sealed under this key and header, gives this body
    Unequal,
}

// Why no piece came out of a body.
#[derive(Clone, Copy, PartialEq, Eq, Debug)]
pub enum PieceFault {
    Head(HeadFault),
    Open(OpenFault),
}

// Kept: a derived `From` has no contract, and clauses name the fault that `?` makes (`from_gives`).
impl From<HeadFault> for PieceFault {
    ghost from_gives = { λ e r. r ≡ Head e };

    fn from(fault: HeadFault) -> PieceFault {
        PieceFault::Head(fault)
    }
}

impl From<OpenFault> for PieceFault {
    ghost from_gives = { λ e r. r ≡ Open e };

    fn from(fault: OpenFault) -> PieceFault {
        PieceFault::Open(fault)
    }
}
