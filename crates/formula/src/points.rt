// The numbers of switches and faults.
ghost use Rattle.std.specs.Prelude.{◌≤◌};
ghost use Rattle.scope.specs.Typed.{most_number};

// As a text has them: each has two digits at most.
#[derive(Clone, Copy)]
pub struct Points {
    pub switches: u32,
    pub faults: u32,
    ghost few_switches: { switches ≤ most_number },
    ghost few_faults: { faults ≤ most_number },
}
