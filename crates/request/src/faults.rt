// Why a line is refused: the fault of its text, whole, or the refusal of a call that it makes.
ghost use Rattle.std.specs.Prelude.{◌≡◌};
ghost use Rattle.request.specs.Requests.{fault_refusal};
ghost use Rattle.request.specs.declared.faults.RequestFault.TheVariants.{Line, Call};

use query::LineFault;
use refusal::Refusal;

#[derive(Clone, Copy, PartialEq, Eq, Debug)]
pub enum RequestFault {
    Line(LineFault),
    Call(Refusal),
}

impl From<LineFault> for RequestFault {
    ghost from_gives = { λ f r. r ≡ Line f };

    fn from(fault: LineFault) -> RequestFault {
        RequestFault::Line(fault)
    }
}

impl From<Refusal> for RequestFault {
    ghost from_gives = { λ e r. r ≡ Call e };

    fn from(refusal: Refusal) -> RequestFault {
        RequestFault::Call(refusal)
    }
}

impl From<RequestFault> for Refusal {
    ghost from_gives = { λ f r. r ≡ fault_refusal f };

    fn from(fault: RequestFault) -> Refusal {
        match fault {
            RequestFault::Line(fault) => Refusal::from(fault),
            RequestFault::Call(refusal) => refusal,
        }
    }
}
