// The kinds of what stands in a file after its header, and their numbers.
ghost use Rattle.std.specs.Prelude.{◌≡◌};
ghost use Rattle.schedule.specs.Inside.Kinds.{number_of_kind, IsKindOf};

use record::{Action, Refusal};

// Kinds 0 to 6: those of the actions, and a burst.
#[derive(Clone, Copy, Debug, PartialEq, Eq)]
pub(crate) enum Kind {
    Insert,
    Delete,
    Find,
    Step,
    Stop,
    Restart,
    Burst,
}

// A number's kind: none is above 6.
impl TryFrom<u32> for Kind {
    type Error = Refusal;

    ghost try_from_gives = { IsKindOf };

    fn try_from(number: u32) -> Result<Kind, Refusal> {
        match number {
            0 => Ok(Kind::Insert),
            1 => Ok(Kind::Delete),
            2 => Ok(Kind::Find),
            3 => Ok(Kind::Step),
            4 => Ok(Kind::Stop),
            5 => Ok(Kind::Restart),
            6 => Ok(Kind::Burst),
            _ => Err(Refusal::BadEvent),
        }
    }
}

// A kind's number.
impl From<Kind> for u32 {
    ghost from_gives = { λ kind number. number ≡ number_of_kind kind };

    fn from(kind: Kind) -> u32 {
        match kind {
            Kind::Insert => 0,
            Kind::Delete => 1,
            Kind::Find => 2,
            Kind::Step => 3,
            Kind::Stop => 4,
            Kind::Restart => 5,
            Kind::Burst => 6,
        }
    }
}

// An action's kind.
impl From<Action> for Kind {
    ghost use Rattle.record.specs.Event.{kind_of};

    ghost from_gives = { λ action kind. number_of_kind kind ≡ kind_of action };

    fn from(action: Action) -> Kind {
        match action {
            Action::Insert(_) => Kind::Insert,
            Action::Delete(_) => Kind::Delete,
            Action::Find(_) => Kind::Find,
            Action::Step => Kind::Step,
            Action::Stop => Kind::Stop,
            Action::Restart => Kind::Restart,
        }
    }
}
