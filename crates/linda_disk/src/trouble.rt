//! Troubles of a disk in memory: what is to go wrong, and when.

ghost use Rattle.std.specs.Prelude.{◌≡◌, None};
ghost use Rattle.linda_disk.specs.declared.trouble.Power.TheVariants.{On};
ghost use Rattle.linda_disk.specs.Trouble as spec;

/// How long the power is on.
#[derive(Clone, Copy, PartialEq, Eq)]
pub(crate) enum Power {
    /// As long as anyone asks.
    On,
    /// For so many writes, cuts and syncs more. It goes off inside the next one.
    OnFor(u64),
    /// No more: each call fails.
    Off,
}

/// What is to go wrong.
#[derive(Clone, Copy, PartialEq, Eq)]
pub(crate) struct Trouble {
    /// How long the power is on.
    pub(crate) power: Power,
    /// How many calls work before one that fails, reads among them.
    pub(crate) failing: Option<u64>,
}

/// How a call goes.
#[derive(Clone, Copy, PartialEq, Eq)]
pub(crate) enum Turn {
    /// It works.
    Works,
    /// The machine stops inside it.
    Stops,
    /// It fails, and does nothing.
    Fails,
}

impl Trouble {
    /// Nothing goes wrong.
    pub(crate) fn none() -> Trouble
        ensures power { result.power ≡ On }
        ensures failing { result.failing ≡ None }
    {
        Trouble {
            power: Power::On,
            failing: None,
        }
    }

    /// How a length or a read goes, and what is to go wrong after it.
    pub(crate) fn at_read(self) -> (Turn, Trouble)
        ensures { result ≡ spec.turn_of_read self }
    {
        match self.power {
            Power::Off => (Turn::Fails, self),
            power => turn_with(power, self.failing),
        }
    }

    /// How a write, a cut or a sync goes, and what is to go wrong after it.
    pub(crate) fn at_call(self) -> (Turn, Trouble)
        ensures { result ≡ spec.turn_of_call self }
    {
        match self.power {
            Power::On => turn_with(Power::On, self.failing),
            Power::OnFor(0) => {
                let trouble = Trouble {
                    power: Power::Off,
                    failing: self.failing,
                };
                (Turn::Stops, trouble)
            }
            Power::OnFor(more) => turn_with(Power::OnFor(more - 1), self.failing),
            Power::Off => (Turn::Fails, self),
        }
    }
}

/// How a call goes if the power is on, and what is to go wrong after it.
fn turn_with(power: Power, failing: Option<u64>) -> (Turn, Trouble)
    ensures { result ≡ spec.turn_with power failing }
{
    match failing {
        None => (
            Turn::Works,
            Trouble {
                power,
                failing: None,
            },
        ),
        Some(0) => (
            Turn::Fails,
            Trouble {
                power,
                failing: None,
            },
        ),
        Some(more) => (
            Turn::Works,
            Trouble {
                power,
                failing: Some(more - 1),
            },
        ),
    }
}
